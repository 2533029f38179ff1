// Result codes by their names (document 01, "Codes a desk clerk sees").
use itron::code::E_OK;
use itron::error::Error;
use std::fmt;

// A result code is shown by its name, and a number that is no code as it is.
#[derive(Clone, Copy)]
pub struct Code(pub i32);

impl fmt::Display for Code {
    fn fmt<W: fmt::Write>(&self, f: &mut fmt::Formatter<W>) -> fmt::Result {
        let number = self.0;
        if number == E_OK {
            return f.write_str("E_OK");
        }
        match Error::try_from(number) {
            Ok(error) => write!(f, "{error}"),
            Err(_) => write!(f, "{number}"),
        }
    }
}
