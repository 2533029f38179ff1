// The lines of memory regions, and of what is handed out of them.
ghost use Rattle.kernel.specs.Valid.{Valid};

use crate::line::Patterns;
use crate::names::Code;
use kernel::state::State;
use std::io::Write;
use std::{fmt, io};

pub(crate) fn write_region<W: Write>(out: &mut W, state: &State, number: usize) -> io::Result<()>
    requires { Valid state.now }
{
    let region = state.region(number);
    let domain = region.domain;
    let attribute = region.attribute;
    let base = region.base;
    let size = region.size;
    let patterns = Patterns(region.vector);
    write!(out, "  mem {number} domain={domain} attr={attribute}")?;
    writeln!(out, " base={base} size={size} vector={patterns}")
}

// `CODE length=L first=B last=B`: the bytes of an empty part are told as 0.
#[derive(Clone, Copy)]
pub struct Handed<'a> {
    // As the kernel gives it.
    pub code: i32,
    pub part: &'a [u8],
}

impl fmt::Display for Handed<'_> {
    fn fmt<W: fmt::Write>(&self, f: &mut fmt::Formatter<W>) -> fmt::Result {
        let part = self.part;
        let code = Code(self.code);
        let length = part.len();
        let first = part.first().copied().unwrap_or(0);
        let last = part.last().copied().unwrap_or(0);
        write!(f, "{code} length={length} first={first} last={last}")
    }
}
