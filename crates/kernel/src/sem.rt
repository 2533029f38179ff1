// Semaphores: their entry, the calls on them (signal, poll, wait, refer and set-vector), and what a dump shows of one.
ghost use Rattle.std.specs.Prelude.{◌≡◌};
ghost use Rattle.model.specs.State.{sem_at};
ghost use Rattle.model.specs.Checks.{passed};
ghost use Rattle.model.specs.Acts.{own, refer, set_vector};
ghost use Rattle.model.specs.Semaphores.{act_of, room};
ghost use Rattle.model.specs.Table.{check_entry, enter, sem};
ghost use Rattle.model.specs.Calls.{call, on_semaphore};
ghost use Rattle.model.specs.declared.Patience.TheVariants.{Polling, Forever};
ghost use Rattle.model.specs.declared.sem.SemaphoreCall.TheVariants.{Signal as signal, Acquire as acquire};
ghost use Rattle.semaphore.specs.Effects.{acted};
ghost use Rattle.kernel.specs.View.{view_of};
ghost use Rattle.kernel.specs.Valid.{Valid};
ghost use Rattle.kernel.specs.Answers.{answered};
ghost use Rattle.kernel.specs.Inside.{with_tasks, with_semaphores, check_of, coded};
ghost use Rattle.kernel.specs.Promises.{Enters, Does, Tells};

use crate::check::coded;
use crate::state::{Answer, Entered, State};
use access::vector::Vector;
use itron::error::Error;
use itron::limit::MAX_SEMAPHORES;
use model::Patience;
use model::sem::{Semaphore, SemaphoreCall, SemaphoreRequest};
use semaphore::call::{act, operation};
use semaphore::entry;
use semaphore::entry::SemaphoreEntry;
use semaphore::state::Semaphores;
use tasks::effect::Effect;

impl State {
    #[tactic(auto, using(crate::proofs::Back::sems_held))]
    pub(crate) fn check_semaphore(self, given: SemaphoreEntry) -> Result<(), Error>
        requires { Valid self }
        ensures { result ≡ passed (check_entry (view_of self) (sem given.domain given.attribute given.start given.max given.vector)) }
    {
        let semaphores = self.semaphores;
        self.opening(semaphores.len(), MAX_SEMAPHORES, self.owns(given.domain))?;
        entry::check(given.attribute, given.start, given.max)
    }

    // As for every kind: a form that all share would take a closure over the state for these four lines.
    pub fn add_semaphore(mut self, given: SemaphoreEntry) -> Entered
        requires { Valid self }
        ensures { Enters self (enter (view_of self) (sem given.domain given.attribute given.start given.max given.vector)) result }
    {
        let checked = self.check_semaphore(given);
        if checked.is_err() {
            return self.enter(checked);
        }
        let semaphores = self.semaphores;
        self.semaphores = semaphores.register(given);
        self.enter(Ok(()))
    }

    // What a request does to the tasks and the semaphores.
    pub(crate) fn semaphore_effect(
        self,
        caller: i32,
        id: i32,
        request: SemaphoreRequest,
    ) -> Effect<Semaphores>
        requires { Valid self }
        ensures { result ≡ acted self.tasks self.semaphores (act_of request) (coded (check_of room self caller id (act_of request))) }
    {
        let tasks = self.tasks;
        let semaphores = self.semaphores;
        let check = self.check(caller, semaphores.find(id), operation(request));
        act(tasks, semaphores, coded(check), request)
    }

    // A call's effect on the tasks and the semaphores. The state is made anew: measured, storing into it costs a copy of it more.
    pub(crate) fn with_semaphores(self, effect: Effect<Semaphores>) -> Answer
        ensures { result ≡ answered effect.reply effect.info (with_semaphores (with_tasks self effect.tasks) effect.records) }
    {
        let reply = effect.reply;
        let outcome = reply.outcome;
        let released = reply.released;
        let info = effect.info;
        let tasks = effect.tasks;
        let semaphores = effect.records;
        Answer {
            outcome,
            word: reply.word,
            released,
            info,
            state: State {
                tasks,
                semaphores,
                ..self
            },
        }
    }

    // Any request of a semaphore. The calls below, each under its name in μITRON, do not use it: measured, what several of them share copies the whole state.
    pub(crate) fn on_semaphore(mut self, caller: i32, id: i32, request: SemaphoreRequest) -> Answer
        requires { Valid self }
        ensures { Does self (call caller (on_semaphore id (act_of request))) result }
    {
        self.with_semaphores(self.semaphore_effect(caller, id, request))
    }

    // Signal.
    pub fn sig_sem(mut self, caller: i32, id: i32) -> Answer
        requires { Valid self }
        ensures { Does self (call caller (on_semaphore id (own signal))) result }
    {
        self.with_semaphores(self.semaphore_effect(
            caller,
            id,
            SemaphoreRequest::Own(SemaphoreCall::Signal),
        ))
    }

    // Poll.
    pub fn pol_sem(mut self, caller: i32, id: i32) -> Answer
        requires { Valid self }
        ensures { Does self (call caller (on_semaphore id (own (acquire Polling)))) result }
    {
        self.with_semaphores(self.semaphore_effect(
            caller,
            id,
            SemaphoreRequest::Own(SemaphoreCall::Acquire(Patience::Polling)),
        ))
    }

    // Wait.
    pub fn wai_sem(mut self, caller: i32, id: i32) -> Answer
        requires { Valid self }
        ensures { Does self (call caller (on_semaphore id (own (acquire Forever)))) result }
    {
        self.with_semaphores(self.semaphore_effect(
            caller,
            id,
            SemaphoreRequest::Own(SemaphoreCall::Acquire(Patience::Forever)),
        ))
    }

    // Refer.
    pub fn ref_sem(mut self, caller: i32, id: i32) -> Answer
        requires { Valid self }
        ensures { Tells self (call caller (on_semaphore id refer)) result }
    {
        self.with_semaphores(self.semaphore_effect(caller, id, SemaphoreRequest::Refer))
    }

    // Set-vector.
    pub fn sac_sem(mut self, caller: i32, id: i32, vector: Vector) -> Answer
        requires { Valid self }
        ensures { Does self (call caller (on_semaphore id (set_vector vector))) result }
    {
        self.with_semaphores(self.semaphore_effect(caller, id, SemaphoreRequest::SetVector(vector)))
    }

    #[tactic(auto, using(crate::proofs::Back::sems_held))]
    pub fn semaphore(self, number: usize) -> Semaphore
        requires { Valid self }
        ensures { result ≡ sem_at (view_of self) number }
    {
        let semaphores = self.semaphores;
        semaphores.semaphore(number)
    }
}
