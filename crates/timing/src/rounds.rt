// Rounds of a step on a table; the numbers that the step gives are summed up, so that it has to be made.
ghost use Rattle.std.specs.Prelude.{ℕ};

use kernel::state::State;

// Each round begins with the same state.
pub(crate) fn each_anew<F: Fn(State, u32) -> u32>(rounds: u32, start: State, step: F) -> u32
    requires { (round : ℕ) → F.pre step start round }
{
    let mut sum: u32 = 0;
    for round in 0..rounds {
        sum = sum.wrapping_add(step(start, round));
    }
    sum
}
