// The lines of data queues: a dump's and a refer's.
ghost use Rattle.kernel.specs.Valid.{Valid};

use crate::line::{Patterns, separator, write_waiters};
use crate::names::Told;
use kernel::state::{Answer, State};
use model::Side;
use std::io::Write;
use std::{fmt, io};

// `CODE sender=T receiver=T count=C vector=P,P,P,P`
#[derive(Clone, Copy)]
pub(crate) struct Referred<'a>(pub &'a Answer);

impl fmt::Display for Referred<'_> {
    fn fmt<W: fmt::Write>(&self, f: &mut fmt::Formatter<W>) -> fmt::Result {
        let info = self.0.info;
        let told = Told(self.0.outcome);
        let sender = info.first;
        let receiver = info.second;
        let count = info.amount;
        let patterns = Patterns(info.vector);
        write!(
            f,
            "{told} sender={sender} receiver={receiver} count={count} vector={patterns}"
        )
    }
}

// The words of a buffer, oldest first.
fn write_words<W: Write>(out: &mut W, state: &State, number: usize, count: usize) -> io::Result<()>
    requires { Valid state.now }
{
    for k in 0..count {
        write!(out, "{}{}", separator(k), state.word(number, k))?;
    }
    Ok(())
}

pub(crate) fn write_queue<W: Write>(out: &mut W, state: &State, number: usize) -> io::Result<()>
    requires { Valid state.now }
{
    let queue = state.queue(number);
    let domain = queue.domain;
    let capacity = queue.capacity;
    let patterns = Patterns(queue.vector);
    write!(
        out,
        "  dtq {number} domain={domain} capacity={capacity} vector={patterns} buffer="
    )?;
    write_words(out, state, number, queue.count)?;
    write!(out, " senders=")?;
    write_waiters(out, state, Side::Sending, number)?;
    write!(out, " receivers=")?;
    write_waiters(out, state, Side::Receiving, number)?;
    writeln!(out, " attr={}", queue.attribute)
}
