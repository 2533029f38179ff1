// A command's first word says which numbers follow it.
use crate::flaw::Flaw;
use crate::numbers::Numbers;
use crate::parse::Command;
use crate::shape::{PATTERNS, Shape};
use crate::{dtq, entry, mem, sem, svc};
use itron::limit::MIN_UNIT;

// As for the kinds, for the commands that are of no kind of object.
fn named(word: &[u8], numbers: Numbers) -> Option<Result<Command, Flaw>> {
    let command = match word {
        b"fresh" => fresh(numbers),
        b"task" => entry::task(numbers),
        b"close" => bare(numbers, Command::Close),
        b"audit" => audit(numbers),
        b"dump" => bare(numbers, Command::Dump),
        b"say" => Ok(Command::Say),
        _ => return None,
    };
    Some(command)
}

// The command that a line's first word names, with the line's numbers.
pub(crate) fn command_of(word: &[u8], numbers: Numbers) -> Result<Command, Flaw> {
    named(word, numbers)
        .or_else(|| sem::named(word, numbers))
        .or_else(|| dtq::named(word, numbers))
        .or_else(|| mem::named(word, numbers))
        .or_else(|| svc::named(word, numbers))
        .unwrap_or(Err(Flaw::UnknownCommand))
}

// A command with no numbers.
fn bare(numbers: Numbers, command: Command) -> Result<Command, Flaw> {
    numbers.counted(Shape::fixed(0, 0))?;
    Ok(command)
}

// A fresh table, and its unit if that is given.
fn fresh(numbers: Numbers) -> Result<Command, Flaw> {
    numbers.counted(Shape::open(0, 1))?;
    let domains = numbers.number(1)?;
    let unit = numbers.optional(2)?.unwrap_or(MIN_UNIT);
    Ok(Command::Fresh(domains, unit))
}

fn audit(numbers: Numbers) -> Result<Command, Flaw> {
    numbers.counted(Shape::fixed(1, PATTERNS))?;
    let domains = numbers.number(1)?;
    let vector = numbers.vector(2)?;
    Ok(Command::Audit(domains, vector))
}
