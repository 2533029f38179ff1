// The checks with which every call begins (document 01, "Calls on an open gateway").
ghost use Rattle.std.specs.Prelude.{◌≡◌};
ghost use Rattle.model.specs.State.{no};
ghost use Rattle.kernel.specs.View.{view_of};
ghost use Rattle.kernel.specs.Valid.{Valid};
ghost use Rattle.kernel.specs.Inside.{caller_in, checked_by, coded};

use crate::state::State;
use access::domain::running;
use access::pattern::admits;
use access::vector::Operation;
use itron::error::Error;
use model::check::{Admitted, Target};
use tasks::wait::Caller;

// What the checks found, a refusal by its code.
pub(crate) fn coded(check: Result<Admitted, Error>) -> Result<Admitted, i32>
    ensures { result ≡ coded check }
{
    check.map_err(i32::from)
}

impl State {
    // A registered ready task of a closed table, with the domain as which it runs.
    pub(crate) fn caller(self, number: i32) -> Option<Caller>
        requires { Valid self }
        ensures { result ≡ caller_in (view_of self) (no number) }
    {
        if !self.closed {
            return None;
        }
        let tasks = self.tasks;
        let Caller { task, domain } = tasks.caller(number)?;
        let levels = self.levels;
        let domain = running(domain, levels.level(task));
        Some(Caller { task, domain })
    }

    // First hit wins.
    pub(crate) fn check(
        self,
        caller: i32,
        target: Result<Target, Error>,
        operation: Operation,
    ) -> Result<Admitted, Error>
        requires { Valid self }
        ensures { result ≡ checked_by (caller_in (view_of self) (no caller)) operation target }
    {
        let Caller { task, domain } = self.caller(caller).ok_or(Error::Ctx)?;
        let Target { object, vector } = target?;
        if !admits(vector.pattern(operation), domain) {
            return Err(Error::Oacv);
        }
        Ok(Admitted { task, object })
    }
}
