// The bench table of document 01 ("Bench runs"), built and closed by the kernel's operations.
#![tactic(auto)]

ghost use Rattle.std.specs.Prelude.{◌≡◌, pos, take, drop};
ghost use Rattle.model.specs.Table.{fresh};
ghost use Rattle.kernel.specs.View.{view_of};
ghost use Rattle.kernel.specs.Valid.{Valid};
ghost use Rattle.laws.specs.Starred.{vector, unit, entries, enter_all, bench};

use access::domain::KERNEL_DOMAIN;
use access::vector::Vector;
use dataqueue::entry::QueueEntry;
use kernel::state::State;
use regions::entry::RegionEntry;
use regions::flag::{EXECUTABLE, NO_WRITE};
use semaphore::entry::SemaphoreEntry;

// The protection unit, of which document 01's regions are made.
const UNIT: u32 = 4_096;

// A vector, given to an entry.
pub fn given(normal1: u32, normal2: u32, management: u32, reference: u32) -> Option<Vector>
    ensures { result ≡ Some (vector normal1 normal2 management reference) }
{
    Some(Vector {
        normal1,
        normal2,
        management,
        reference,
    })
}

// Tasks 1 and 4 in domain 1, task 2 in domain 2, task 3 in the kernel, all of one priority.
fn tasks() -> State
    ensures { Valid result × (view_of result ≡ enter_all (fresh (pos 2) unit).state (take 4 entries)) }
{
    let mut s = State::fresh(2, UNIT).state;
    s = s.add_task(1, 1).state;
    s = s.add_task(2, 1).state;
    s = s.add_task(KERNEL_DOMAIN, 1).state;
    s.add_task(1, 1).state
}

// Semaphore 1, data queues 1 and 2.
fn objects(mut s: State) -> State
    requires { Valid s }
    ensures { Valid result × (view_of result ≡ enter_all (view_of s) (take 3 (drop 4 entries))) }
{
    s = s
        .add_semaphore(SemaphoreEntry {
            domain: KERNEL_DOMAIN,
            attribute: 0,
            start: 1,
            max: 2,
            vector: given(1, 1, 0, 3),
        })
        .state;
    s = s
        .add_queue(QueueEntry {
            domain: KERNEL_DOMAIN,
            attribute: 0,
            capacity: 2,
            vector: given(1, 1, 0, 3),
        })
        .state;
    s.add_queue(QueueEntry {
        domain: KERNEL_DOMAIN,
        attribute: 0,
        capacity: 0,
        vector: given(3, 3, 0, 3),
    })
    .state
}

// Regions 1 and 2.
fn areas(mut s: State) -> State
    requires { Valid s }
    ensures { Valid result × (view_of result ≡ enter_all (view_of s) (drop 7 entries)) }
{
    s = s
        .add_region(RegionEntry {
            domain: KERNEL_DOMAIN,
            attribute: NO_WRITE + EXECUTABLE,
            base: 0x1000,
            size: 0x1000,
            vector: given(0, 3, 0, 3),
        })
        .state;
    s.add_region(RegionEntry {
        domain: KERNEL_DOMAIN,
        attribute: 0,
        base: 0x2000,
        size: 0x1000,
        vector: given(1, 1, 0, 1),
    })
    .state
}

// All of it, closed.
pub fn closed() -> State
    ensures { Valid result × (view_of result ≡ bench) }
{
    let s = areas(objects(tasks()));
    s.close().state
}
