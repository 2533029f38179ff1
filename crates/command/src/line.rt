// A line of input while its bytes come in, and a line's text.
ghost use Rattle.std.specs.Prelude.{◌≡◌, ◌≤◌, [], take, drop, length, eqb};
ghost use Rattle.command.specs.Lines.{line_size, pushed, pushed_to, gathered_of, gathered_to, without_cr, without_cr_of};

// One more than the longest line that is read: a full array is a line that is too long.
pub const SIZE: usize = 256;

const LF: u8 = b'\n';

// The first `count` of some bytes, in fixed memory, and Copy, as the session that holds a line is. A count beyond the array means all of it.
#[derive(Clone, Copy)]
pub struct Line {
    pub bytes: [u8; SIZE],
    pub count: usize,
}

// The line so far, and the place behind the LF that ended it; None where the block ended first.
#[derive(Clone, Copy)]
pub struct Gathered {
    pub line: Line,
    pub next: Option<usize>,
}

impl Line {
    pub fn empty() -> Line
        ensures bytes { take result.count result.bytes ≡ [] }
        ensures count { result.count ≡ 0 }
    {
        Line {
            bytes: [0; SIZE],
            count: 0,
        }
    }

    pub fn as_slice(&self) -> &[u8]
        ensures { result.now ≡ take self.now.count self.now.bytes }
    {
        &self.bytes[..SIZE.min(self.count)]
    }

    pub fn is_empty(self) -> bool
        ensures { result ≡ eqb (length (take self.count self.bytes)) 0 }
    {
        self.count == 0
    }

    // Whether the line is too long.
    pub fn is_full(self) -> bool
        ensures { result ≡ eqb (length (take self.count self.bytes)) line_size }
    {
        SIZE <= self.count
    }

    // The line with one byte more; what does not fit is passed over.
    pub fn pushed(mut self, byte: u8) -> Line
        ensures bytes { take result.count result.bytes ≡ pushed (take self.count self.bytes) byte }
        ensures whole { result ≡ pushed_to self byte }
        ensures within { self.count ≤ line_size → result.count ≤ line_size }
    {
        let at = self.count;
        if SIZE <= at {
            return self;
        }
        self.bytes[at] = byte;
        self.count = at + 1;
        self
    }

    // The line without the CR that stands before its LF.
    pub fn without_cr(mut self) -> Line
        ensures bytes { take result.count result.bytes ≡ without_cr (take self.count self.bytes) }
        ensures whole { self.count ≤ line_size → result ≡ without_cr_of self }
        ensures within { self.count ≤ line_size → result.count ≤ line_size }
    {
        if let Some(before) = self.as_slice().strip_suffix(b"\r") {
            self.count = before.len();
        }
        self
    }

    // Takes bytes of a block from a place on, to the line's LF or the block's end.
    pub fn gathered(self, block: &[u8], from: usize) -> Gathered
        ensures bytes { (take result.line.count result.line.bytes, result.next) ≡ gathered_of (take self.count self.bytes) from (drop from block.now) }
        ensures whole { result.line ≡ gathered_to self (drop from block.now) }
        ensures within { self.count ≤ line_size → result.line.count ≤ line_size }
    {
        let mut line = self;
        for at in from..block.len() {
            let byte = block[at];
            if byte == LF {
                return Gathered {
                    line,
                    next: Some(at + 1),
                };
            }
            line = line.pushed(byte);
        }
        Gathered { line, next: None }
    }
}
