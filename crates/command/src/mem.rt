// The lines of memory regions: the entry's, the verdict's and the hand-out's.
ghost use Rattle.command.specs.Shapes.{Small, Wide};

use crate::entry::Entry;
use crate::flaw::Flaw;
use crate::numbers::Numbers;
use crate::parse::Command;
use crate::shape::{PATTERNS, Shape};
use images::pair::Bases;
use regions::entry::RegionEntry;

// The bytes of each image that the program holds; a line lends the first of them.
pub const IMAGE: usize = 4_096;

// A domain reads an area out of two images, which have so many bytes.
#[derive(Clone, Copy)]
pub struct HandOut {
    pub domain: i32,
    pub base: u32,
    pub size: u32,
    pub bases: Bases,
    pub flash: u32,
    pub ram: u32,
}

// The command that a word of this kind names, with the line's numbers; None for any other word.
pub(crate) fn named(word: &[u8], numbers: Numbers) -> Option<Result<Command, Flaw>> {
    match word {
        b"mem" => Some(entry(numbers)),
        b"prb_mem" => Some(probe(numbers)),
        b"get_mem" => Some(hand_out(numbers)),
        _ => None,
    }
}

// Domain, attribute, base and size, and the vector if that is given.
fn entry(numbers: Numbers) -> Result<Command, Flaw> {
    numbers.counted(Shape::open(3, PATTERNS))?;
    let entry = RegionEntry {
        domain: numbers.number(1)?,
        attribute: numbers.number(2)?,
        base: numbers.number(3)?,
        size: numbers.number(4)?,
        vector: numbers.choice(5)?,
    };
    Ok(Command::Entry(Entry::Region(entry)))
}

// A domain asks about a base, a size and wishes.
pub fn probe_shape() -> Shape
    ensures { Small result }
{
    Shape::fixed(1, 3)
}

// The verdict is no task's call: the line names the domain itself.
fn probe(numbers: Numbers) -> Result<Command, Flaw> {
    numbers.counted(probe_shape())?;
    Ok(Command::Probe {
        domain: numbers.number(1)?,
        base: numbers.number(2)?,
        size: numbers.number(3)?,
        wishes: numbers.number(4)?,
    })
}

// A domain asks for an area, base and size, out of flash and out of RAM, each with its base and its length.
pub fn hand_out_shape() -> Shape
    ensures { Wide result }
{
    Shape::fixed(1, 6)
}

fn hand_out(numbers: Numbers) -> Result<Command, Flaw> {
    numbers.counted_wide(hand_out_shape())?;
    let domain = numbers.number(1)?;
    let base = numbers.number(2)?;
    let size = numbers.number(3)?;
    // In the order of the words, so that the first wrong one is told. An image that is longer than the program's is out of range.
    let flash_base = numbers.number(4)?;
    let flash = numbers.at_most(5, IMAGE as u32)?;
    let ram_base = numbers.number(6)?;
    let ram = numbers.at_most(7, IMAGE as u32)?;
    Ok(Command::HandOut(HandOut {
        domain,
        base,
        size,
        bases: Bases {
            flash: flash_base,
            ram: ram_base,
        },
        flash,
        ram,
    }))
}
