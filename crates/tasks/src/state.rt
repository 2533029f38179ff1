// All tasks, and those of them who wait in the order in which they began to.
ghost use Rattle.std.specs.Prelude.{◌≡◌, false, [], ◌∷◌, ◌++◌, suc, ◌<◌, length};
ghost use Rattle.itron.specs.Limits.{max_domains, max_tasks};
ghost use Rattle.model.specs.Conditions.{TaskEntryFits};
ghost use Rattle.model.specs.Table.{new_task};
ghost use Rattle.model.specs.Waits.{leave, join};
ghost use Rattle.tasks.specs.View.{entries_of, waits_of, waiter_of};
ghost use Rattle.tasks.specs.Form.{tasks_as};
ghost use Rattle.tasks.specs.Held.{Held, Free, is_ready};
ghost use Rattle.tasks.specs.Ends.{task_of};

use crate::order::Order;
use crate::task::{Task, Wait};
use itron::limit::MAX_TASKS;

#[derive(Clone, Copy)]
pub struct Tasks {
    pub(crate) count: usize,
    pub(crate) entries: [Task; MAX_TASKS],
    // Who waits.
    pub(crate) order: Order,
}

impl Tasks {
    // No task.
    pub fn empty() -> Tasks
        ensures { result ≡ tasks_as [] [] }
    {
        Tasks {
            count: 0,
            entries: [Task::NONE; MAX_TASKS],
            order: Order::EMPTY,
        }
    }

    // How many tasks there are.
    pub fn len(self) -> usize
        requires { Held self }
        ensures { result ≡ length (entries_of self) }
    {
        self.count
    }

    // One task more, which is ready.
    pub fn add(mut self, domain: i32, priority: u32) -> Tasks
        requires { Held self × (length (entries_of self) < max_tasks) × (waits_of self ≡ []) × TaskEntryFits max_domains (new_task domain priority) }
        ensures { result ≡ tasks_as (entries_of self ++ (new_task domain priority ∷ [])) (waits_of self) }
    {
        self.entries[self.count] = Task {
            domain: domain as i8,
            priority: priority as u8,
            wait: Wait::Ready,
        };
        self.count += 1;
        self
    }

    // The task with a number.
    pub fn task(self, number: usize) -> Task
        requires { Held self }
        ensures { result ≡ task_of (entries_of self) (waits_of self) number }
    {
        match number.checked_sub(1) {
            Some(task) if task < self.count => self.entries[task],
            _ => Task::NONE,
        }
    }

    // A waiting task becomes ready.
    pub(crate) fn release(mut self, task: usize) -> Tasks
        requires { Held self × (task < length (entries_of self)) }
        ensures { result ≡ tasks_as (entries_of self) (leave (suc task) (waits_of self)) }
    {
        self.order = self.order.without(task as u8);
        self.entries[task] = self.entries[task].with_wait(Wait::Ready);
        self
    }

    // A ready task waits, the last of all.
    pub(crate) fn join(mut self, task: usize, wait: Wait) -> Tasks
        requires { Held self × Free (entries_of self) (waits_of self) task × (is_ready wait ≡ false) }
        ensures { result ≡ tasks_as (entries_of self) (join (waiter_of (suc task) wait) (waits_of self)) }
    {
        self.order.push(task as u8);
        self.entries[task] = self.entries[task].with_wait(wait);
        self
    }
}
