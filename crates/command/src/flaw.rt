// Why a line is not made (docs/replay.md, "Input").
use crate::number::NumberError;

#[derive(Clone, Copy, Debug, PartialEq, Eq)]
pub enum Flaw {
    LongLine,
    UnknownCommand,
    // How many numbers its command takes, the fewest and the most, and how many are given.
    Count {
        fewest: usize,
        most: usize,
        given: usize,
    },
    // The place of the first word that is wrong; the command's is 0.
    Number {
        place: usize,
        error: NumberError,
    },
}
