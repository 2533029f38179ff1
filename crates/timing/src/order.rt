// Calls that release the first of many waiters, in either order: by turns with the call that makes the released task wait again, so that
// as many wait in every round, and alone, each round from the same state.
ghost use Rattle.kernel.specs.Valid.{Valid};

use crate::count::released_task;
use crate::rounds::each_anew;
use crate::table::REGION_SIZE;
use dataqueue::entry::QueueEntry;
use itron::limit::MAX_TASKS;
use kernel::state::State;
use semaphore::entry::SemaphoreEntry;

// The one semaphore and the one queue.
const ID: i32 = 1;

const DOMAIN: i32 = 1;

// The priority of task 1, which makes the calls; the others wait.
const CALLER_PRIORITY: u32 = 1;

const FIRST_WAITER: u32 = 2;

const LAST_WAITER: u32 = MAX_TASKS as u32;

const MOST_WAITERS: usize = MAX_TASKS - 1;

// Task 1 and one with each of these priorities, as many as there can be, with a semaphore of count 0 and a queue of that order.
pub(crate) fn table<'a>(attribute: u32, capacity: u32, priorities: &'a [u32]) -> State
    ensures { Valid result }
{
    let mut s = State::fresh(1, REGION_SIZE).state;
    s = s.add_task(DOMAIN, CALLER_PRIORITY).state;
    for priority in priorities.iter().take(MOST_WAITERS) {
        s = s.add_task(DOMAIN, *priority).state;
    }
    s = s
        .add_semaphore(SemaphoreEntry {
            domain: DOMAIN,
            attribute,
            start: 0,
            max: 1,
            vector: None,
        })
        .state;
    s = s
        .add_queue(QueueEntry {
            domain: DOMAIN,
            attribute,
            capacity,
            vector: None,
        })
        .state;
    s.close().state
}

// Every task but the first waits for the semaphore; a number that is no task's is refused.
pub(crate) fn all_wait(mut s: State) -> State
    requires { Valid s }
    ensures { Valid result }
{
    for task in FIRST_WAITER..=LAST_WAITER {
        s = s.wai_sem(task as i32, ID).state;
    }
    s
}

// The queue is filled, and every task but the first waits to send its number.
pub(crate) fn all_send(mut s: State, capacity: u32, task: i32) -> State
    requires { Valid s }
    ensures { Valid result }
{
    for _ in 0..capacity {
        s = s.psnd_dtq(task, ID, 0).state;
    }
    for sender in FIRST_WAITER..=LAST_WAITER {
        s = s.snd_dtq(sender as i32, ID, sender).state;
    }
    s
}

// A task signals, and who is released waits again; the sum of the numbers released.
#[unsafe(no_mangle)]
pub extern "C" fn timing_signal_wait<'a>(
    rounds: u32,
    attribute: u32,
    task: i32,
    priorities: &'a [u32],
) -> u32 {
    let mut s = all_wait(table(attribute, 0, priorities));
    let mut sum: u32 = 0;
    for _ in 0..rounds {
        let signalled = s.sig_sem(task, ID);
        s = signalled.state;
        let next = released_task(signalled.released);
        s = s.wai_sem(next, ID).state;
        sum = sum.wrapping_add(next as u32);
    }
    sum
}

// A task receives, and who is released sends again; the sum of the words received and the numbers released.
#[unsafe(no_mangle)]
pub extern "C" fn timing_receive_send<'a>(
    rounds: u32,
    attribute: u32,
    capacity: u32,
    task: i32,
    priorities: &'a [u32],
) -> u32 {
    let mut s = all_send(table(attribute, capacity, priorities), capacity, task);
    let mut sum: u32 = 0;
    for round in 0..rounds {
        let received = s.prcv_dtq(task, ID);
        s = received.state;
        let next = released_task(received.released);
        s = s.snd_dtq(next, ID, round).state;
        sum = sum.wrapping_add(received.word).wrapping_add(next as u32);
    }
    sum
}

// One signal from the same state in every round; the sum of the numbers released.
#[unsafe(no_mangle)]
pub extern "C" fn timing_signal_once<'a>(
    rounds: u32,
    attribute: u32,
    task: i32,
    priorities: &'a [u32],
) -> u32 {
    let start = all_wait(table(attribute, 0, priorities));
    each_anew(rounds, start, |s, _| {
        released_task(s.sig_sem(task, ID).released) as u32
    })
}

// One receive from the same state in every round; the sum of the words received and the numbers released.
#[unsafe(no_mangle)]
pub extern "C" fn timing_receive_once<'a>(
    rounds: u32,
    attribute: u32,
    capacity: u32,
    task: i32,
    priorities: &'a [u32],
) -> u32 {
    let start = all_send(table(attribute, capacity, priorities), capacity, task);
    each_anew(rounds, start, |s, _| {
        let received = s.prcv_dtq(task, ID);
        received
            .word
            .wrapping_add(released_task(received.released) as u32)
    })
}
