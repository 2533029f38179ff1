// Wait queues: who is first at a place, who calls, who is woken and who begins to wait.
ghost use Rattle.std.specs.Prelude.{◌≡◌, true, false, [], map, ℕ, suc, ◌<◌, ◌≤◌, length, get_or};
ghost use Rattle.itron.specs.Limits.{max_tasks};
ghost use Rattle.model.specs.State.{place, no};
ghost use Rattle.model.specs.Waits.{waiters_in, standing, first_task, or_waits};
ghost use Rattle.tasks.specs.View.{entries_of, waits_of, waiter_of};
ghost use Rattle.tasks.specs.Held.{Held, Free, is_ready};
ghost use Rattle.tasks.specs.Places.{place_in};
ghost use Rattle.tasks.specs.Ends.{task_number, first_of, task_in, caller_of, ended_of, woken_of};

use crate::lead::Lead;
use crate::state::Tasks;
use crate::task::{Place, Task, Wait};
use access::domain;
use itron::code::{E_OK, E_TMOUT};
use model::{Outcome, Patience, Released, Reply, Side};

// The index of the first who waits at a place, with its word.
#[derive(Clone, Copy)]
pub struct First {
    pub task: usize,
    pub word: u32,
}

// Who calls: the index of a ready task, with its domain.
#[derive(Clone, Copy)]
pub struct Caller {
    pub task: usize,
    pub domain: i32,
}

// A call's end that changes the tasks only.
#[derive(Clone, Copy)]
pub struct Ended {
    pub reply: Reply,
    pub tasks: Tasks,
}

// The number of the task with an index; 0 if there is none, which answers show (document 01).
pub(crate) fn task_number(task: Option<usize>) -> usize
    requires { task_number task ≤ max_tasks }
    ensures { result ≡ task_number task }
{
    task.map_or(0, |task| task + 1)
}

impl Tasks {
    // The index of the one who waits at a place and came with k ahead of it; none if no more than k do.
    pub(crate) fn arrived(&self, place: Place, k: usize) -> Option<usize>
        requires { Held self.now }
        ensures { task_number result ≡ get_or (map task_in (waiters_in (waits_of self.now) (place_in place))) k 0 }
    {
        let mut ahead = k;
        let arrivals = self.order.as_slice();
        // Tried as a chain of `filter` and `nth`: that its closure's index is in range was not proved.
        for &task in arrivals {
            let task = usize::from(task);
            if self.entries[task].wait.is_at(place) {
                let Some(less) = ahead.checked_sub(1) else {
                    return Some(task);
                };
                ahead = less;
            }
        }
        None
    }

    // The index of the most urgent who waits at a place, of equals the one who came first; none if nobody does.
    pub(crate) fn most_urgent(self, place: Place) -> Option<usize>
        requires { Held self }
        ensures { task_number result ≡ first_task (standing true (entries_of self) (waiters_in (waits_of self) (place_in place))) }
    {
        let Tasks { entries, order, .. } = self;
        let mut lead: Option<Lead> = None;
        let arrivals = order.as_slice();
        for &task in arrivals {
            let task = usize::from(task);
            let Task { priority, wait, .. } = entries[task];
            if wait.is_at(place) {
                lead = Some(Lead { task, priority }.after(lead));
            }
        }
        lead.map(|lead| lead.task)
    }

    // The index of the one who stands at a place by priority with k ahead of it; none if no more than k do.
    pub(crate) fn ranked(mut self, place: Place, k: usize) -> Option<usize>
        requires { Held self }
        ensures { task_number result ≡ get_or (map task_in (standing true (entries_of self) (waiters_in (waits_of self) (place_in place)))) k 0 }
    {
        'ahead: for _ in 0..k {
            // Who is ahead leaves the copy that is searched.
            let task = self.most_urgent(place)?;
            self = self.release(task);
        }
        self.most_urgent(place)
    }

    // The number of the one who stands at a place with k ahead of it, by priority or as they came; 0 if no more than k do.
    pub fn waiter(&self, side: Side, object: usize, by_priority: bool, k: usize) -> usize
        requires { Held self.now }
        ensures { result ≡ get_or (map task_in (standing by_priority (entries_of self.now) (waiters_in (waits_of self.now) (place side (suc object))))) k 0 }
    {
        let place = Place { side, object };
        if by_priority {
            return task_number(self.ranked(place, k));
        }
        task_number(self.arrived(place, k))
    }

    // The index of the first who stands at a place, by priority or as they came; none if nobody does.
    pub(crate) fn foremost(self, place: Place, by_priority: bool) -> Option<usize>
        requires { Held self }
        ensures { task_number result ≡ first_task (standing by_priority (entries_of self) (waiters_in (waits_of self) (place_in place))) }
    {
        // Measured: spares a copy of the tasks where nobody waits.
        if self.order.is_empty() {
            return None;
        }
        if by_priority {
            return self.most_urgent(place);
        }
        self.arrived(place, 0)
    }

    // The first who stands at a place, by priority or as they came.
    pub fn first(self, side: Side, object: usize, by_priority: bool) -> Option<First>
        requires { Held self }
        ensures { result ≡ first_of (standing by_priority (entries_of self) (waiters_in (waits_of self) (place side (suc object)))) }
    {
        let task = self.foremost(Place { side, object }, by_priority)?;
        let entries = self.entries;
        let word = entries[task].wait.word();
        Some(First { task, word })
    }

    // The number of the first who stands at a place, by priority or as they came; 0 if nobody does.
    pub fn first_number(self, side: Side, object: usize, by_priority: bool) -> usize
        requires { Held self }
        ensures { result ≡ first_task (standing by_priority (entries_of self) (waiters_in (waits_of self) (place side (suc object)))) }
    {
        task_number(self.foremost(Place { side, object }, by_priority))
    }

    // Who calls under a number: only a registered ready task may.
    pub fn caller(self, number: i32) -> Option<Caller>
        requires { Held self }
        ensures { result ≡ caller_of (entries_of self) (waits_of self) (no number) }
    {
        let ordinal = domain::ordinal(number, self.count)?;
        let task = ordinal - 1;
        let entry = self.entries[task];
        if entry.wait != Wait::Ready {
            return None;
        }
        Some(Caller {
            task,
            domain: entry.domain(),
        })
    }

    // A waiting task is released and handed a word; the caller gets E_OK and a word.
    pub fn wake(self, task: usize, word: u32, handed: u32) -> Ended
        requires { Held self × (task < length (entries_of self)) }
        ensures { result ≡ woken_of (entries_of self) (waits_of self) task word handed }
    {
        Ended {
            reply: Reply {
                outcome: Outcome::Code(E_OK),
                word,
                released: Released {
                    task: task + 1,
                    word: handed,
                },
            },
            tasks: self.release(task),
        }
    }

    // The caller waits, if it has the patience.
    pub fn or_wait(self, task: usize, wait: Wait, patience: Patience) -> Ended
        requires { Held self × Free (entries_of self) (waits_of self) task × (is_ready wait ≡ false) }
        ensures { result ≡ ended_of (entries_of self) (or_waits {R = ℕ} (waits_of self) [] patience (waiter_of (suc task) wait)) }
    {
        match patience {
            Patience::Polling => Ended {
                reply: Reply::plain(E_TMOUT, 0),
                tasks: self,
            },
            // Not stored into `self` first: measured, that costs a copy of the tasks more.
            Patience::Forever => Ended {
                reply: Reply {
                    outcome: Outcome::Waiting,
                    word: 0,
                    released: Released { task: 0, word: 0 },
                },
                tasks: self.join(task, wait),
            },
        }
    }
}
