// Why a line is not made, behind `bad line` (docs/replay.md, "Input").
use command::flaw::Flaw;
use command::number::NumberError;
use command::word::word;
use std::io::Write;
use std::{fmt, io};

// How many numbers a command takes: `1 number`, `2 numbers` or `1 or 2 numbers`. The fewest are told where more may be given.
#[derive(Clone, Copy)]
struct Wanted {
    fewest: usize,
    most: usize,
}

impl fmt::Display for Wanted {
    fn fmt<W: fmt::Write>(&self, f: &mut fmt::Formatter<W>) -> fmt::Result {
        let Wanted { fewest, most } = *self;
        if fewest != most {
            write!(f, "{fewest} or ")?;
        }
        let noun = if most == 1 { "number" } else { "numbers" };
        write!(f, "{most} {noun}")
    }
}

// A line that is too long has no reason behind its answer. A word of a line's text is bytes, which need not be UTF-8.
pub fn write_flaw<W: Write>(out: &mut W, text: &[u8], flaw: Flaw) -> io::Result<()> {
    write!(out, "bad line")?;
    match flaw {
        Flaw::LongLine => Ok(()),
        Flaw::UnknownCommand => write!(out, ": no such command"),
        Flaw::Count {
            fewest,
            most,
            given,
        } => write!(out, ": {} wanted, {given} given", Wanted { fewest, most }),
        Flaw::Number { place, error } => {
            let reason = match error {
                NumberError::NoNumber => "no number",
                NumberError::OutOfRange => "out of range",
            };
            write!(out, ": {reason}: ")?;
            out.write_all(word(text, place))
        }
    }
}
