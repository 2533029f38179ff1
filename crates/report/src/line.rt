// What the lines of several kinds share.
ghost use Rattle.kernel.specs.Valid.{Valid};

use access::vector::Vector;
use itron::limit::MAX_TASKS;
use kernel::state::State;
use model::Side;
use std::io::Write;
use std::{fmt, io};
use tasks::task::Wait;

// `P,P,P,P`
#[derive(Clone, Copy)]
pub(crate) struct Patterns(pub Vector);

impl fmt::Display for Patterns {
    fn fmt<W: fmt::Write>(&self, f: &mut fmt::Formatter<W>) -> fmt::Result {
        let Vector {
            normal1,
            normal2,
            management,
            reference,
        } = self.0;
        write!(f, "{normal1},{normal2},{management},{reference}")
    }
}

// What stands before element k of a list.
pub(crate) fn separator(k: usize) -> &'static str {
    if k == 0 { "" } else { "," }
}

// Those who wait at a place, first to last; of a sender also the word that it brings.
pub(crate) fn write_waiters<W: Write>(
    out: &mut W,
    state: &State,
    side: Side,
    number: usize,
) -> io::Result<()>
    requires { Valid state.now }
{
    for k in 0..MAX_TASKS {
        let task = state.waiter(side, number, k);
        if task == 0 {
            break;
        }
        write!(out, "{}{task}", separator(k))?;
        // Only a sender brings a word; a look at any other's task would be for nothing.
        if side == Side::Sending {
            if let Wait::Sending(_, word) = state.task(task).wait() {
                write!(out, ":{word}")?;
            }
        }
    }
    Ok(())
}
