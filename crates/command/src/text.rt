// A line's text: no comment, no blanks at its ends, and one space between two words.
ghost use Rattle.std.specs.Prelude.{◌≡◌, ◌≤◌, take};
ghost use Rattle.command.specs.Lines.{line_size};
ghost use Rattle.command.specs.Texts.{is_blank, spaced as spaced_of, with as with_byte, text_of as text_of_line};

use crate::line::Line;

const TAB: u8 = b'\t';

pub(crate) const SPACE: u8 = b' ';

const HASH: u8 = b'#';

fn is_blank(byte: u8) -> bool
    ensures { result ≡ is_blank byte }
{
    byte == SPACE || byte == TAB
}

// A gap between two words is one space.
fn spaced(text: Line, gap: bool) -> Line
    ensures bytes { take result.count result.bytes ≡ spaced_of gap (take text.count text.bytes) }
    ensures within { text.count ≤ line_size → result.count ≤ line_size }
{
    if gap && !text.is_empty() {
        return text.pushed(SPACE);
    }
    text
}

// The text with the line's next byte, given whether a blank stands before that.
#[tactic(auto, using(crate::proofs::Walks::with_blank, crate::proofs::Walks::with_byte))]
fn with(text: Line, gap: bool, byte: u8) -> Line
    ensures bytes { take result.count result.bytes ≡ with_byte gap (take text.count text.bytes) byte }
    ensures within { text.count ≤ line_size → result.count ≤ line_size }
{
    if is_blank(byte) {
        return text;
    }
    spaced(text, gap).pushed(byte)
}

// The text of a line's bytes.
pub fn text_of(line: &[u8]) -> Line
    ensures bytes { take result.count result.bytes ≡ text_of_line line.now }
    ensures within { result.count ≤ line_size }
{
    let mut text = Line::empty();
    let mut gap = false;
    for &byte in line {
        if byte == HASH {
            return text;
        }
        text = with(text, gap, byte);
        gap = is_blank(byte);
    }
    text
}

// What stands for a line that is too long.
pub(crate) fn long() -> Line
    ensures { result.count ≤ line_size }
{
    let mut text = Line::empty();
    for &byte in b"(long line)" {
        text = text.pushed(byte);
    }
    text
}
