// Result codes and outcomes by their names.
use model::Outcome;
use std::fmt;
pub use text::code::Code;

// What a call answers.
#[derive(Clone, Copy)]
pub struct Told(pub Outcome);

impl fmt::Display for Told {
    fn fmt<W: fmt::Write>(&self, f: &mut fmt::Formatter<W>) -> fmt::Result {
        match self.0 {
            Outcome::Code(number) => write!(f, "{}", Code(number)),
            Outcome::Waiting => write!(f, "waiting"),
        }
    }
}
