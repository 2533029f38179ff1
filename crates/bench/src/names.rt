// How numbers of document 01 are written: result codes and wishes by their names, a vector by its patterns.
use access::vector::Vector;
use regions::flag::{EXECUTE, READ, WRITE};
use std::fmt;
pub use text::code::Code;

// What is wished to be done with an area.
#[derive(Clone, Copy)]
pub struct Wishes(pub u32);

impl fmt::Display for Wishes {
    fn fmt<W: fmt::Write>(&self, f: &mut fmt::Formatter<W>) -> fmt::Result {
        match self.0 {
            WRITE => f.write_str("write"),
            READ => f.write_str("read"),
            EXECUTE => f.write_str("execute"),
            other => write!(f, "use by wishes {other}"),
        }
    }
}

// The patterns of a vector: normal operation 1, normal operation 2, management, reference.
pub type Patterns = [u32; 4];

pub fn vector(patterns: Patterns) -> Vector {
    let [normal1, normal2, management, reference] = patterns;
    Vector {
        normal1,
        normal2,
        management,
        reference,
    }
}

#[derive(Clone, Copy)]
pub struct Listed(pub Vector);

impl fmt::Display for Listed {
    fn fmt<W: fmt::Write>(&self, f: &mut fmt::Formatter<W>) -> fmt::Result {
        let vector = self.0;
        write!(
            f,
            "{} {} {} {}",
            vector.normal1, vector.normal2, vector.management, vector.reference
        )
    }
}
