// Building the table: fresh, a task's entry, closing, and what the entries of all kinds share (document 01, "Building the table").
ghost use Rattle.std.specs.Prelude.{◌≡◌};
ghost use Rattle.model.specs.Checks.{passed};
ghost use Rattle.model.specs.Table.{empty_state, fresh, owns, owns_task, check_entry, enter, task, close};
ghost use Rattle.kernel.specs.View.{view_of};
ghost use Rattle.kernel.specs.Form.{state_of};
ghost use Rattle.kernel.specs.Valid.{Valid};
ghost use Rattle.kernel.specs.Inside.{opening};
ghost use Rattle.kernel.specs.Promises.{Begins, Enters};

use crate::state::{Entered, State};
use access::domain::{KERNEL_DOMAIN, NO_DOMAIN, ordinal};
use dataqueue::state::Queues;
use itron::error::Error;
use itron::limit::{MAX_DOMAINS, MAX_TASKS, MIN_UNIT};
use levels::state::Levels;
use regions::state::Regions;
use regions::unit::is_unit;
use semaphore::state::Semaphores;
use tasks::entry;
use tasks::state::Tasks;

impl State {
    // The open table with no entry.
    pub(crate) fn empty(domains: usize, unit: u32) -> State
        ensures { result ≡ state_of (empty_state domains unit) }
    {
        State {
            domains,
            closed: false,
            tasks: Tasks::empty(),
            levels: Levels::outside(),
            semaphores: Semaphores::empty(),
            queues: Queues::empty(),
            regions: Regions::empty(unit),
        }
    }

    // A fresh state for n user domains and a protection unit.
    pub fn fresh(n: i32, unit: u32) -> Entered
        ensures { Begins n unit result }
    {
        let domains = ordinal(n, MAX_DOMAINS);
        let counted = (n == 0) | domains.is_some();
        if !(counted & is_unit(unit)) {
            return State::empty(0, MIN_UNIT).enter(Err(Error::Par));
        }
        State::empty(domains.unwrap_or(0), unit).enter(Ok(()))
    }

    // Whether a task may belong to a domain, and whether the verdict may be asked for it: the kernel's, or 1 to n.
    pub(crate) fn owns_task(&self, domain: i32) -> bool
        ensures { result ≡ owns_task self.now.domains domain }
    {
        if domain == KERNEL_DOMAIN {
            return true;
        }
        ordinal(domain, self.domains).is_some()
    }

    // Whether another object may belong to a domain: also to none.
    pub(crate) fn owns(&self, domain: i32) -> bool
        ensures { result ≡ owns self.now.domains domain }
    {
        if domain == NO_DOMAIN {
            return true;
        }
        self.owns_task(domain)
    }

    // Steps 1 to 3 of an entry's checks, first hit wins: table closed, kind full, domain.
    pub(crate) fn opening(self, used: usize, most: usize, owned: bool) -> Result<(), Error>
        ensures { result ≡ passed (opening self.closed used most owned) }
    {
        if self.closed {
            return Err(Error::Ctx);
        }
        if most <= used {
            return Err(Error::Noid);
        }
        if !owned {
            return Err(Error::Id);
        }
        Ok(())
    }

    #[tactic(auto, using(crate::proofs::Back::tasks_held))]
    pub(crate) fn check_task(self, domain: i32, priority: u32) -> Result<(), Error>
        requires { Valid self }
        ensures { result ≡ passed (check_entry (view_of self) (task domain priority)) }
    {
        let tasks = self.tasks;
        self.opening(tasks.len(), MAX_TASKS, self.owns_task(domain))?;
        entry::check(priority)
    }

    // A task entry holds its domain and its priority.
    pub fn add_task(mut self, domain: i32, priority: u32) -> Entered
        requires { Valid self }
        ensures { Enters self (enter (view_of self) (task domain priority)) result }
    {
        let checked = self.check_task(domain, priority);
        if checked.is_err() {
            return self.enter(checked);
        }
        let tasks = self.tasks;
        self.tasks = tasks.add(domain, priority);
        self.enter(Ok(()))
    }

    // Closing only closes.
    pub fn close(mut self) -> Entered
        requires { Valid self }
        ensures { Enters self (close (view_of self)) result }
    {
        if self.closed {
            return self.enter(Err(Error::Ctx));
        }
        self.closed = true;
        self.enter(Ok(()))
    }
}
