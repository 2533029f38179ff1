// The entry of a task (document 01, "Building the table"; request T-10).
ghost use Rattle.std.specs.Prelude.{◌≡◌};
ghost use Rattle.model.specs.Checks.{passed};
ghost use Rattle.tasks.specs.Entries.{entry_check};

use itron::error::Error;
use itron::limit::MAX_PRIORITY;

// Step 5 of the checks.
pub fn check(priority: u32) -> Result<(), Error>
    ensures { result ≡ passed (entry_check priority) }
{
    match priority {
        1..=MAX_PRIORITY => Ok(()),
        _ => Err(Error::Par),
    }
}
