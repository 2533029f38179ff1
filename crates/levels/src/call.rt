// Entering and leaving an extended service call.
ghost use Rattle.std.specs.Prelude.{◌≡◌, ◌<◌};
ghost use Rattle.itron.specs.Limits.{max_tasks};
ghost use Rattle.levels.specs.Effects.{changed_of, acted};

use crate::state::Levels;
use itron::error::Error;
use itron::limit::MAX_LEVEL;
use model::svc::ExtendedCall;

// What a call makes of its caller's level: entering adds one, unless the level is the highest; leaving takes one off, unless it is 0.
pub(crate) fn change(call: ExtendedCall, level: u8) -> Result<u8, Error>
    ensures { result ≡ changed_of call level }
{
    match call {
        ExtendedCall::Enter if MAX_LEVEL <= level => Err(Error::Sys),
        ExtendedCall::Enter => Ok(level + 1),
        ExtendedCall::Leave => level.checked_sub(1).ok_or(Error::Ctx),
    }
}

// A call of the ready task with an index: the levels after it, or its refusal, which leaves them as they were.
pub fn act(levels: Levels, task: usize, call: ExtendedCall) -> Result<Levels, Error>
    requires { task < max_tasks }
    ensures { result ≡ acted levels task call }
{
    let level = change(call, levels.level(task))?;
    Ok(levels.with_level(task, level))
}
