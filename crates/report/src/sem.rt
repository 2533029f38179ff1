// The lines of semaphores: a dump's and a refer's.
ghost use Rattle.kernel.specs.Valid.{Valid};

use crate::line::{Patterns, write_waiters};
use crate::names::Told;
use kernel::state::{Answer, State};
use model::Side;
use std::io::Write;
use std::{fmt, io};

// `CODE waiter=T count=C vector=P,P,P,P`
#[derive(Clone, Copy)]
pub(crate) struct Referred<'a>(pub &'a Answer);

impl fmt::Display for Referred<'_> {
    fn fmt<W: fmt::Write>(&self, f: &mut fmt::Formatter<W>) -> fmt::Result {
        let info = self.0.info;
        let told = Told(self.0.outcome);
        let waiter = info.first;
        let count = info.amount;
        let patterns = Patterns(info.vector);
        write!(f, "{told} waiter={waiter} count={count} vector={patterns}")
    }
}

pub(crate) fn write_semaphore<W: Write>(out: &mut W, state: &State, number: usize) -> io::Result<()>
    requires { Valid state.now }
{
    let semaphore = state.semaphore(number);
    let domain = semaphore.domain;
    let count = semaphore.count;
    let max = semaphore.max;
    let patterns = Patterns(semaphore.vector);
    write!(
        out,
        "  sem {number} domain={domain} count={count} max={max}"
    )?;
    write!(out, " vector={patterns} waiters=")?;
    write_waiters(out, state, Side::OnSem, number)?;
    writeln!(out, " attr={}", semaphore.attribute)
}
