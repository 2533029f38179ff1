// A dump: its first line, and a line for each object.
ghost use Rattle.kernel.specs.Valid.{Valid};

use crate::dtq::write_queue;
use crate::mem::write_region;
use crate::sem::write_semaphore;
use crate::task::write_task;
use kernel::query::Summary;
use kernel::state::State;
use std::io::Write;
use std::{fmt, io};

// The first line of a dump.
#[derive(Clone, Copy)]
struct Counts(Summary);

impl fmt::Display for Counts {
    fn fmt<W: fmt::Write>(&self, f: &mut fmt::Formatter<W>) -> fmt::Result {
        let Summary {
            domains,
            unit,
            closed,
            tasks,
            semaphores,
            queues,
            regions,
        } = self.0;
        let closed = u8::from(closed);
        write!(
            f,
            "n={domains} closed={closed} tasks={tasks} sems={semaphores}"
        )?;
        write!(f, " dtqs={queues} mems={regions} unit={unit}")
    }
}

// The lines of a kind stand in order of the numbers.
pub fn write_dump<W: Write>(out: &mut W, state: &State) -> io::Result<()>
    requires { Valid state.now }
{
    let summary = state.summary();
    writeln!(out, "{}", Counts(summary))?;
    for number in 1..=summary.tasks {
        write_task(out, state, number)?;
    }
    for number in 1..=summary.semaphores {
        write_semaphore(out, state, number)?;
    }
    for number in 1..=summary.queues {
        write_queue(out, state, number)?;
    }
    for number in 1..=summary.regions {
        write_region(out, state, number)?;
    }
    Ok(())
}
