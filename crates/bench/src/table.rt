// The bench table, and the limits of a table.
ghost use Rattle.std.specs.Prelude.{IfOk};
ghost use Rattle.kernel.specs.Valid.{Valid};

use crate::entries::Entry::{Queue, Region, Semaphore, Task};
use crate::entries::{Entry, close, enter, fresh, table};
use crate::say::heading;
use access::domain::{KERNEL_DOMAIN, NO_DOMAIN};
use itron::limit::{Limits, MAX_CAPACITY, MIN_UNIT};
use kernel::state::State;
use regions::flag::{EXECUTABLE, NO_WRITE};
use std::io;

// A unit with which document 01's regions are right.
pub const PAGE: u32 = 4_096;

// Tasks, semaphore and queues of all runs, and the regions; document 01 leaves the owners open.
const BENCH: [Entry; 9] = [
    Task(1, 1),
    Task(2, 1),
    Task(KERNEL_DOMAIN, 1),
    Task(1, 1),
    Semaphore(NO_DOMAIN, 0, 1, 2, Some([1, 1, 0, 3])),
    Queue(NO_DOMAIN, 0, 2, Some([1, 1, 0, 3])),
    Queue(NO_DOMAIN, 0, 0, Some([3, 3, 0, 3])),
    Region(
        KERNEL_DOMAIN,
        NO_WRITE + EXECUTABLE,
        0x1000,
        0x1000,
        Some([0, 3, 0, 3]),
    ),
    Region(KERNEL_DOMAIN, 0, 0x2000, 0x1000, Some([1, 1, 0, 1])),
];

pub fn closed(rt: &impl Print) -> io::Result<State>
    ensures { IfOk result Valid }
{
    heading(rt, "The table of all runs")?;
    close(rt, table(rt, &BENCH)?)
}

// The limits, as the program has them.
fn say_limits(rt: &impl Print) -> io::Result<()> {
    let limits = Limits::all();
    print!(rt;
        "  limits: domains {}, tasks {}, semaphores {}, queues {}, regions {}",
        limits.domains, limits.tasks, limits.semaphores, limits.queues, limits.regions
    )?;
    print!(rt;
        ", words of all queues {}, of one {}, count {}, priority {}, level {}",
        limits.words, limits.capacity, limits.count, limits.priority, limits.level
    )?;
    println!(rt;
        ", addresses {}, units {} to {}",
        limits.addresses, limits.finest, limits.coarsest
    )
}

const COUNTS: [Entry; 3] = [
    Semaphore(NO_DOMAIN, 0, 0, 65_535, None),
    Semaphore(NO_DOMAIN, 0, 0, 65_536, None),
    Semaphore(NO_DOMAIN, 0, 2, 1, None),
];

// Of the largest capacity.
const LARGEST: Entry = Queue(NO_DOMAIN, 0, MAX_CAPACITY, None);

// One word too many; all words that there are, and one more.
const CAPACITIES: [Entry; 11] = [
    Queue(NO_DOMAIN, 0, MAX_CAPACITY + 1, None),
    LARGEST,
    LARGEST,
    LARGEST,
    LARGEST,
    LARGEST,
    LARGEST,
    LARGEST,
    LARGEST,
    Queue(NO_DOMAIN, 0, 1, None),
    Queue(NO_DOMAIN, 0, 0, None),
];

pub fn limits(rt: &impl Print) -> io::Result<()> {
    heading(rt, "Table")?;
    say_limits(rt)?;
    fresh(rt, 33, MIN_UNIT)?;
    let s = enter(rt, fresh(rt, 32, MIN_UNIT)?, &COUNTS)?;
    enter(rt, s, &CAPACITIES)?;
    Ok(())
}
