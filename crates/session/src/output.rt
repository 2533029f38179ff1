// What goes out is gathered in a block of fixed memory, which is written at the end of a line when it has no room for another, and
// before the program reads on.
ghost use Rattle.std.specs.Prelude.{◌≡◌, None, ◌≤◌, length};

use itron::limit::{MAX_CAPACITY, MAX_TASKS};
use std::io;
use std::io::Write;

// What the longest line has besides its lists, and more.
const PLAIN_LINE: usize = 400;

// A comma and a word of ten digits.
const LISTED_WORD: usize = 11;

// A comma, a task's number of three digits, a colon and a word.
const LISTED_SENDER: usize = 15;

// The longest line is that of a data queue whose buffer is full and on which all tasks wait to send.
const LONGEST_LINE: usize = PLAIN_LINE
    + MAX_CAPACITY as usize * LISTED_WORD
    + MAX_TASKS * LISTED_SENDER;

const BLOCK: usize = 2 * LONGEST_LINE;

// A writer that takes all it is given: the failure of a write is kept, and told by the next flush; until then nothing more is written.
#[derive(Drop)]
pub struct Output<W> {
    to: W,
    block: [u8; BLOCK],
    count: usize,
    failure: Option<io::Error>,
}

impl<W: Write> Output<W> {
    pub fn new(to: W) -> Output<W>
        ensures holds_nothing { result.count ≡ 0 }
        ensures has_not_failed { result.failure ≡ None }
    {
        Output {
            to,
            block: [0; BLOCK],
            count: 0,
            failure: None,
        }
    }

    // Writes the bytes of the block; few of the pieces that come in lead to it.
    #[cold]
    fn send(&mut self) {
        if self.failure.is_none() {
            let count = BLOCK.min(self.count);
            self.failure = self.to.write_all(&self.block[..count]).err();
        }
        self.count = 0;
    }

    // Takes as many of the bytes as have room.
    #[inline(always)]
    fn gather(&mut self, bytes: &[u8]) -> usize
        ensures { result ≤ length bytes.now }
    {
        if BLOCK <= self.count {
            self.send();
        }
        let at = BLOCK.min(self.count);
        let count = bytes.len().min(BLOCK - at);
        self.block[at..at + count].copy_from_slice(&bytes[..count]);
        self.count = at + count;
        if bytes.ends_with(b"\n") && LONGEST_LINE <= self.count {
            self.send();
        }
        count
    }
}

impl<W: Write> Write for Output<W> {
    fn write(&mut self, bytes: &[u8]) -> io::Result<usize> {
        Ok(self.gather(bytes))
    }

    // Measured: the trait's own, a loop over `write`, has nearly twice the instructions for a piece of a line.
    #[inline(always)]
    fn write_all(&mut self, bytes: &[u8]) -> io::Result<()> {
        let count = self.gather(bytes);
        // What had no room; the block is empty or goes out first, so that each part has room.
        for part in bytes[count..].chunks(BLOCK) {
            self.gather(part);
        }
        Ok(())
    }

    fn flush(&mut self) -> io::Result<()> {
        self.send();
        match self.failure.take() {
            Some(failure) => Err(failure),
            None => self.to.flush(),
        }
    }
}
