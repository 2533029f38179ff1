// Building a table, each step with its line.
ghost use Rattle.std.specs.Prelude.{IfOk};
ghost use Rattle.kernel.specs.Valid.{Valid};

use crate::names::{Code, Listed, Patterns, vector};
use crate::table::PAGE;
use access::vector::Vector;
use dataqueue::entry::QueueEntry;
use kernel::state::{Entered, State};
use regions::entry::RegionEntry;
use semaphore::entry::SemaphoreEntry;
use std::{fmt, io};

// An entry, by its domain and what else it has in document 01's order; a vector is given or the default.
#[derive(Clone, Copy)]
pub enum Entry {
    Task(i32, u32),
    Semaphore(i32, u32, u32, u32, Option<Patterns>),
    Queue(i32, u32, u32, Option<Patterns>),
    Region(i32, u32, u32, u32, Option<Patterns>),
}

fn choice(given: Option<Patterns>) -> Option<Vector> {
    match given {
        Some(patterns) => Some(vector(patterns)),
        None => None,
    }
}

impl Entry {
    fn made(self, s: State) -> Entered
        requires { Valid s }
        ensures { Valid result.state }
    {
        match self {
            Entry::Task(domain, priority) => s.add_task(domain, priority),
            Entry::Semaphore(domain, attribute, start, max, given) => {
                s.add_semaphore(SemaphoreEntry {
                    domain,
                    attribute,
                    start,
                    max,
                    vector: choice(given),
                })
            }
            Entry::Queue(domain, attribute, capacity, given) => s.add_queue(QueueEntry {
                domain,
                attribute,
                capacity,
                vector: choice(given),
            }),
            Entry::Region(domain, attribute, base, size, given) => s.add_region(RegionEntry {
                domain,
                attribute,
                base,
                size,
                vector: choice(given),
            }),
        }
    }
}

// What an entry says of its vector.
#[derive(Clone, Copy)]
struct Given(Option<Patterns>);

impl fmt::Display for Given {
    fn fmt<W: fmt::Write>(&self, f: &mut fmt::Formatter<W>) -> fmt::Result {
        match self.0 {
            Some(patterns) => write!(f, "vector {}", Listed(vector(patterns))),
            None => f.write_str("default vector"),
        }
    }
}

impl fmt::Display for Entry {
    fn fmt<W: fmt::Write>(&self, f: &mut fmt::Formatter<W>) -> fmt::Result {
        match *self {
            Entry::Task(domain, priority) => {
                write!(f, "task in domain {domain}, priority {priority}")
            }
            Entry::Semaphore(domain, attribute, start, max, given) => write!(
                f,
                "semaphore in domain {domain}, attribute {attribute}, start {start}, max {max}, {}",
                Given(given)
            ),
            Entry::Queue(domain, attribute, capacity, given) => write!(
                f,
                "queue in domain {domain}, attribute {attribute}, capacity {capacity}, {}",
                Given(given)
            ),
            Entry::Region(domain, attribute, base, size, given) => write!(
                f,
                "region in domain {domain}, attribute {attribute}, base 0x{base:x}, size {size}, {}",
                Given(given)
            ),
        }
    }
}

// The rest of a line.
fn entered(rt: &impl Print, made: Entered) -> io::Result<State>
    requires { Valid made.state }
    ensures { IfOk result Valid }
{
    println!(rt; ": {}", Code(made.code))?;
    Ok(made.state)
}

pub fn fresh(rt: &impl Print, n: i32, unit: u32) -> io::Result<State>
    ensures { IfOk result Valid }
{
    print!(rt; "  fresh table, n = {n}, unit {unit}")?;
    entered(rt, State::fresh(n, unit))
}

pub fn enter(rt: &impl Print, mut s: State, entries: &[Entry]) -> io::Result<State>
    requires { Valid s }
    ensures { IfOk result Valid }
{
    for entry in entries {
        print!(rt; "  enter {entry}")?;
        s = entered(rt, entry.made(s))?;
    }
    Ok(s)
}

// An open table of two domains and of pages.
pub fn table(rt: &impl Print, entries: &[Entry]) -> io::Result<State>
    ensures { IfOk result Valid }
{
    enter(rt, fresh(rt, 2, PAGE)?, entries)
}

pub fn close(rt: &impl Print, s: State) -> io::Result<State>
    requires { Valid s }
    ensures { IfOk result Valid }
{
    rt.print("  close the table")?;
    entered(rt, s.close())
}
