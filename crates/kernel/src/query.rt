// Read-only queries of what belongs to no one kind: how large the table is, a task, who waits. What a dump shows of an object is in
// its kind's file. Objects by number, from 1; what is not there is all zeros.
ghost use Rattle.std.specs.Prelude.{◌≡◌, map, get_or};
ghost use Rattle.model.specs.State.{place};
ghost use Rattle.model.specs.Waits.{order_of, wait_queue};
ghost use Rattle.tasks.specs.Ends.{task_of, task_in};
ghost use Rattle.kernel.specs.View.{view_of};
ghost use Rattle.kernel.specs.Valid.{Valid};
ghost use Rattle.kernel.specs.Answers.{summary_of};

use crate::state::State;
use dataqueue::call::RECEIVERS_BY_PRIORITY;
use model::{Side, attribute};
use tasks::task::Task;

// How large the table is: the number n of user domains, the protection unit, whether it is closed, and its entries by kind.
#[derive(Clone, Copy)]
pub struct Summary {
    pub domains: usize,
    pub unit: u32,
    pub closed: bool,
    pub tasks: usize,
    pub semaphores: usize,
    pub queues: usize,
    pub regions: usize,
}

impl State {
    #[tactic(auto, using(crate::proofs::Back::tasks_held, crate::proofs::Back::sems_held, crate::proofs::Back::queues_held, crate::proofs::Back::regions_held))]
    pub fn summary(self) -> Summary
        requires { Valid self }
        ensures { result ≡ summary_of (view_of self) }
    {
        let tasks = self.tasks;
        let semaphores = self.semaphores;
        let queues = self.queues;
        let regions = self.regions;
        Summary {
            domains: self.domains,
            unit: regions.unit(),
            closed: self.closed,
            tasks: tasks.len(),
            semaphores: semaphores.len(),
            queues: queues.len(),
            regions: regions.len(),
        }
    }

    // A task's domain and priority, and what it does.
    #[tactic(auto, using(crate::proofs::Back::tasks_held))]
    pub fn task(self, number: usize) -> Task
        requires { Valid self }
        ensures { result ≡ task_of (view_of self).fixed.tasks (view_of self).waits number }
    {
        let tasks = self.tasks;
        tasks.task(number)
    }

    // Whether those who wait on that side of an object stand by priority.
    pub(crate) fn by_priority(self, side: Side, number: usize) -> bool
        requires { Valid self }
        ensures { result ≡ order_of (view_of self) side number }
    {
        match side {
            Side::OnSem => attribute::by_priority(self.semaphore(number).attribute),
            Side::Receiving => RECEIVERS_BY_PRIORITY,
            Side::Sending => attribute::by_priority(self.queue(number).attribute),
        }
    }

    // The task that waits on that side of an object with k tasks ahead; 0 past the last, as in answers.
    // Measured: taken into its caller, it has an instruction more for each step of the scan.
    #[inline(never)]
    pub fn waiter(&self, side: Side, number: usize, k: usize) -> usize
        requires { Valid self.now }
        ensures { result ≡ get_or (map task_in (wait_queue (view_of self.now) (place side number))) k 0 }
    {
        if number == 0 {
            return 0;
        }
        let tasks = &self.tasks;
        tasks.waiter(side, number - 1, self.by_priority(side, number), k)
    }
}
