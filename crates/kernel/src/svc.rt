// Extended service calls (request T-03): entering and leaving one, and a task's level.
ghost use Rattle.std.specs.Prelude.{◌≡◌};
ghost use Rattle.model.specs.State.{level_at};
ghost use Rattle.model.specs.Calls.{call, on_level, step};
ghost use Rattle.model.specs.declared.svc.ExtendedCall.TheVariants.{Enter, Leave};
ghost use Rattle.kernel.specs.View.{view_of};
ghost use Rattle.kernel.specs.Valid.{Valid};
ghost use Rattle.kernel.specs.Inside.{levels_given, levels_answered};
ghost use Rattle.kernel.specs.Promises.{Does};

use crate::state::{Answer, State};
use itron::code::E_OK;
use itron::error::Error;
use levels::call::act;
use levels::state::Levels;
use model::svc::ExtendedCall;
use model::{Info, Outcome, Released};
use tasks::wait::Caller;

impl State {
    // What a call on the caller's level gives: a refusal, or the levels after it.
    pub(crate) fn level_effect(self, caller: i32, asked: ExtendedCall) -> Result<Levels, Error>
        requires { Valid self }
        ensures { result ≡ levels_given (step (view_of self) (call caller (on_level asked))) }
    {
        let Caller { task, .. } = self.caller(caller).ok_or(Error::Ctx)?;
        act(self.levels, task, asked)
    }

    // A call's effect on the levels; a refusal leaves them. Measured: the answer is made once and changed in place, since a choice between
    // two of all levels costs a copy of the tasks.
    pub(crate) fn with_levels(self, effect: Result<Levels, Error>) -> Answer
        ensures { result ≡ levels_answered self effect }
    {
        let mut answer = Answer {
            outcome: Outcome::Code(E_OK),
            word: 0,
            released: Released { task: 0, word: 0 },
            info: Info::NONE,
            state: self,
        };
        match effect {
            Ok(levels) => answer.state.levels = levels,
            Err(error) => answer.outcome = Outcome::Code(i32::from(error)),
        }
        answer
    }

    // Either of them.
    pub(crate) fn on_level(mut self, caller: i32, asked: ExtendedCall) -> Answer
        requires { Valid self }
        ensures { Does self (call caller (on_level asked)) result }
    {
        self.with_levels(self.level_effect(caller, asked))
    }

    // Enters an extended service call.
    pub fn cal_svc(mut self, caller: i32) -> Answer
        requires { Valid self }
        ensures { Does self (call caller (on_level Enter)) result }
    {
        self.with_levels(self.level_effect(caller, ExtendedCall::Enter))
    }

    // Leaves the one that was entered last.
    pub fn ret_svc(mut self, caller: i32) -> Answer
        requires { Valid self }
        ensures { Does self (call caller (on_level Leave)) result }
    {
        self.with_levels(self.level_effect(caller, ExtendedCall::Leave))
    }

    // A task's level; 0 where there is no such task, as every query shows zeros for what is not there.
    pub fn level(self, number: usize) -> u8
        requires { Valid self }
        ensures { result ≡ level_at (view_of self) number }
    {
        let tasks = self.tasks;
        let levels = self.levels;
        if number == 0 || tasks.len() < number {
            return 0;
        }
        levels.level(number - 1)
    }
}
