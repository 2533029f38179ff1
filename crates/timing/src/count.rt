// What the loops count, so that the results of two kernels can be compared.
ghost use Rattle.std.specs.Prelude.{◌≤◌, ◌≤ℤ◌, pos};

use itron::code::E_OK;
use model::{Outcome, Released};

// 1 for a call that answered E_OK.
pub(crate) fn good(outcome: Outcome) -> u32
    ensures { result ≤ 1 }
{
    match outcome {
        Outcome::Code(E_OK) => 1,
        _ => 0,
    }
}

// The number of the task that a call released, as a caller gives it; 0 for none.
pub(crate) fn released_task(released: Released) -> i32
    ensures { pos 0 ≤ℤ result }
{
    i32::try_from(released.task).unwrap_or(0)
}
