// One call's numbers, made on the state.
ghost use Rattle.std.proofs.Math.Option.{none};
ghost use Rattle.kernel.specs.Valid.{Valid};
ghost use Rattle.batch.specs.Encoding.{item_of};
ghost use Rattle.batch.specs.Made.{Performs};

use crate::answer::{Made, answered, no_call};
use crate::asked::request_of;
use crate::numbers::Numbers;
use kernel::state::State;

// What is no call changes nothing.
pub(crate) fn refused(state: State) -> Made
    requires { Valid state }
    ensures { Performs state none result }
{
    Made {
        words: no_call(),
        state,
    }
}

pub(crate) fn perform(state: State, numbers: Numbers) -> Made
    requires { Valid state }
    ensures { Performs state (item_of numbers) result }
{
    let Some(request) = request_of(numbers) else {
        return refused(state);
    };
    answered(state.call(numbers.caller, request))
}
