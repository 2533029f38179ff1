// The entry of a semaphore (document 01, "Building the table").
ghost use Rattle.std.specs.Prelude.{◌≡◌, [], ◌∷◌, ◌++◌, ◌<◌, length};
ghost use Rattle.itron.specs.Limits.{max_semaphores};
ghost use Rattle.model.specs.Checks.{passed};
ghost use Rattle.model.specs.Semaphores.{new_sem};
ghost use Rattle.semaphore.specs.View.{sems_of};
ghost use Rattle.semaphore.specs.Form.{sems_as};
ghost use Rattle.semaphore.specs.Held.{Held};
ghost use Rattle.semaphore.specs.Entries.{entry_check};

use crate::state::Semaphores;
use access::vector::Vector;
use itron::error::Error;
use itron::limit::MAX_COUNT;
use model::attribute;
use model::sem::Semaphore;

#[derive(Clone, Copy)]
pub struct SemaphoreEntry {
    pub domain: i32,
    pub attribute: u32,
    pub start: u32,
    pub max: u32,
    pub vector: Option<Vector>,
}

// Steps 4 and 5 of the checks, first hit wins.
pub fn check(attribute: u32, start: u32, max: u32) -> Result<(), Error>
    ensures { result ≡ passed (entry_check attribute start max) }
{
    if !attribute::is_order(attribute) {
        return Err(Error::Rsatr);
    }
    if max < 1 {
        return Err(Error::Par);
    }
    if MAX_COUNT < max {
        return Err(Error::Par);
    }
    if max < start {
        return Err(Error::Par);
    }
    Ok(())
}

impl Semaphores {
    // One semaphore more, as given, its default vector resolved.
    pub fn register(self, given: SemaphoreEntry) -> Semaphores
        requires { Held self × (length (sems_of self) < max_semaphores) }
        ensures { result ≡ sems_as (sems_of self ++ (new_sem given.domain given.attribute given.start given.max given.vector ∷ [])) }
    {
        let vector = Vector::resolved(given.vector, given.domain);
        self.add(Semaphore {
            domain: given.domain,
            attribute: given.attribute,
            max: given.max,
            count: given.start,
            vector,
        })
    }
}
