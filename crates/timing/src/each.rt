// Sends and forced sends into queues of any capacity: one call on each of these queues in turn, every round from the same table.
ghost use Rattle.kernel.specs.Valid.{Valid};

use crate::count::good;
use crate::table::eight_queues;
use kernel::state::State;

// A forced send to each of these queues.
pub(crate) fn forced<'a>(mut s: State, task: i32, ids: &'a [i32]) -> State
    requires { Valid s }
    ensures { Valid result }
{
    for id in ids {
        s = s.fsnd_dtq(task, *id, 0).state;
    }
    s
}

// Then a call on each of others with the round for a word, a forced send or one without waiting; the number of answers E_OK.
pub(crate) fn sent<'a, const FORCED: bool>(
    rounds: u32,
    start: State,
    task: i32,
    ids: &'a [i32],
) -> u32
    requires { Valid start }
{
    let mut sum: u32 = 0;
    for round in 0..rounds {
        let mut s = start;
        for id in ids {
            let a = if FORCED {
                s.fsnd_dtq(task, *id, round)
            } else {
                s.psnd_dtq(task, *id, round)
            };
            s = a.state;
            sum = sum.wrapping_add(good(a.outcome));
        }
    }
    sum
}

// A send to each queue of these; the number of answers E_OK.
#[unsafe(no_mangle)]
pub extern "C" fn timing_send_each<'a>(
    rounds: u32,
    capacity: u32,
    task: i32,
    before: &'a [i32],
    ids: &'a [i32],
) -> u32 {
    let start = forced(eight_queues(capacity), task, before);
    sent::<false>(rounds, start, task, ids)
}

// A forced send to each queue of these; the number of answers E_OK.
#[unsafe(no_mangle)]
pub extern "C" fn timing_force_each<'a>(
    rounds: u32,
    capacity: u32,
    task: i32,
    before: &'a [i32],
    ids: &'a [i32],
) -> u32 {
    let start = forced(eight_queues(capacity), task, before);
    sent::<true>(rounds, start, task, ids)
}
