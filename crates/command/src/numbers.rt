// The numbers of a line, each read as its command takes it.
ghost use Rattle.std.specs.Prelude.{◌≤◌, IfOk};
ghost use Rattle.command.specs.Shapes.{Small, Wide};

use crate::flaw::Flaw;
use crate::number::{Number, NumberError, read_number};
use crate::shape::Shape;
use crate::word::{count, word};
use access::vector::Vector;

// The line's text. A word's place says which word it is; the command's is 0, and its numbers' are 1 and on.
#[derive(Clone, Copy)]
pub(crate) struct Numbers<'a> {
    text: &'a [u8],
}

impl<'a> Numbers<'a> {
    pub(crate) fn of(text: &'a [u8]) -> Numbers<'a> {
        Numbers { text }
    }

    fn given(self) -> usize {
        count(self.text).saturating_sub(1)
    }

    // So many numbers are given: the fewest, or with all that may be left out the most.
    pub(crate) fn counted(self, shape: Shape) -> Result<(), Flaw>
        requires { Small shape }
    {
        self.counted_wide(shape)
    }

    // As counted, for the hand-out alone, which takes more numbers than any other command.
    pub(crate) fn counted_wide(self, shape: Shape) -> Result<(), Flaw>
        requires { Wide shape }
    {
        let fewest = shape.signed + shape.unsigned;
        let most = fewest + shape.optional;
        let given = self.given();
        if given == fewest || given == most {
            return Ok(());
        }
        Err(Flaw::Count {
            fewest,
            most,
            given,
        })
    }

    // The number at this place, as the type that is wanted there.
    pub(crate) fn number<T: TryFrom<Number, Error = NumberError>>(
        self,
        place: usize,
    ) -> Result<T, Flaw> {
        read_number(word(self.text, place))
            .and_then(|number| T::try_from(number))
            .map_err(|error| Flaw::Number { place, error })
    }

    // A number that may be left out.
    pub(crate) fn optional(self, place: usize) -> Result<Option<u32>, Flaw> {
        if self.given() < place {
            return Ok(None);
        }
        Ok(Some(self.number(place)?))
    }

    // A number that must be smaller than its type allows.
    pub(crate) fn at_most(self, place: usize, most: u32) -> Result<u32, Flaw>
        ensures { IfOk result (λ number. number ≤ most) }
    {
        let number = self.number(place)?;
        if number <= most {
            return Ok(number);
        }
        Err(Flaw::Number {
            place,
            error: NumberError::OutOfRange,
        })
    }

    // A call on an object has so many numbers of its own; the calling task's and the object's stand before them.
    pub(crate) fn call(self, unsigned: usize) -> Result<(i32, i32), Flaw>
        requires { unsigned ≤ 4 }
    {
        self.counted(Shape::call(unsigned))?;
        Ok((self.number(1)?, self.number(2)?))
    }

    // The vector of the four patterns from this place on.
    pub(crate) fn vector(self, place: usize) -> Result<Vector, Flaw>
        requires { place ≤ 8 }
    {
        Ok(Vector {
            normal1: self.number(place)?,
            normal2: self.number(place + 1)?,
            management: self.number(place + 2)?,
            reference: self.number(place + 3)?,
        })
    }

    // An entry's vector, which may be left out; one form with `optional` would take a closure for each of the two.
    pub(crate) fn choice(self, place: usize) -> Result<Option<Vector>, Flaw>
        requires { place ≤ 8 }
    {
        if self.given() < place {
            return Ok(None);
        }
        Ok(Some(self.vector(place)?))
    }
}
