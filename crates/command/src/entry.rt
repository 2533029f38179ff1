// A table's entry, whatever its kind.
use crate::flaw::Flaw;
use crate::numbers::Numbers;
use crate::parse::Command;
use crate::shape::Shape;
use dataqueue::entry::QueueEntry;
use regions::entry::RegionEntry;
use semaphore::entry::SemaphoreEntry;

// The priority of a task whose line gives none, the most urgent.
const DEFAULT_PRIORITY: u32 = 1;

#[derive(Clone, Copy)]
pub enum Entry {
    // Domain and priority.
    Task(i32, u32),
    Semaphore(SemaphoreEntry),
    Queue(QueueEntry),
    Region(RegionEntry),
}

// A task's entry: its domain, and its priority if that is given.
pub(crate) fn task(numbers: Numbers) -> Result<Command, Flaw> {
    numbers.counted(Shape::open(0, 1))?;
    let domain = numbers.number(1)?;
    let priority = numbers.optional(2)?.unwrap_or(DEFAULT_PRIORITY);
    Ok(Command::Entry(Entry::Task(domain, priority)))
}
