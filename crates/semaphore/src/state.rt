// All semaphores.
ghost use Rattle.std.specs.Prelude.{◌≡◌, [], ◌∷◌, ◌++◌, suc, ◌<◌, length};
ghost use Rattle.itron.specs.Limits.{max_semaphores};
ghost use Rattle.model.specs.Lists.{put};
ghost use Rattle.model.specs.State.{no};
ghost use Rattle.model.specs.Rooms.{set_vector_of};
ghost use Rattle.model.specs.Semaphores.{sem_in, room};
ghost use Rattle.model.specs.Checks.{target_in};
ghost use Rattle.semaphore.specs.View.{sems_of};
ghost use Rattle.semaphore.specs.Form.{sems_as};
ghost use Rattle.semaphore.specs.Held.{Held};

use access::domain;
use access::vector::Vector;
use itron::error::Error;
use itron::limit::MAX_SEMAPHORES;
use model::check::Target;
use model::sem::Semaphore;

// The first `count` records; the others are zeros.
#[derive(Clone, Copy)]
pub struct Semaphores {
    pub(crate) count: usize,
    pub(crate) records: [Semaphore; MAX_SEMAPHORES],
}

pub(crate) const NO_SEMAPHORE: Semaphore = Semaphore {
    domain: 0,
    attribute: 0,
    max: 0,
    count: 0,
    vector: Vector::KERNEL,
};

impl Semaphores {
    // No semaphore.
    #[tactic(auto, unfolding(crate::specs::Form::sems_as))]
    pub fn empty() -> Semaphores
        ensures { result ≡ sems_as [] }
    {
        Semaphores {
            count: 0,
            records: [NO_SEMAPHORE; MAX_SEMAPHORES],
        }
    }

    // How many semaphores there are.
    #[tactic(auto, using(crate::proofs::Back::count_seen))]
    pub fn len(self) -> usize
        requires { Held self }
        ensures { result ≡ length (sems_of self) }
    {
        self.count
    }

    // One semaphore more, the last.
    #[tactic(auto, using(crate::proofs::Back::count_seen, crate::proofs::Back::add_seen))]
    pub(crate) fn add(mut self, semaphore: Semaphore) -> Semaphores
        requires { Held self × (length (sems_of self) < max_semaphores) }
        ensures { result ≡ sems_as (sems_of self ++ (semaphore ∷ [])) }
    {
        let at = self.count;
        self.records[at] = semaphore;
        self.count = at + 1;
        self
    }

    // The semaphore with a number; zeros where there is none.
    pub fn semaphore(self, number: usize) -> Semaphore
        requires { Held self }
        ensures { result ≡ sem_in (sems_of self) number }
    {
        if number == 0 {
            return NO_SEMAPHORE;
        }
        if self.count < number {
            return NO_SEMAPHORE;
        }
        let at = number - 1;
        self.records[at]
    }

    // The semaphore with an index.
    #[tactic(auto, using(crate::proofs::Back::count_seen, crate::proofs::Back::get_seen))]
    pub(crate) fn get(self, object: usize) -> Semaphore
        requires { Held self × (object < length (sems_of self)) }
        ensures { result ≡ sem_in (sems_of self) (suc object) }
    {
        self.records[object]
    }

    #[tactic(auto, using(crate::proofs::Back::count_seen, crate::proofs::Back::put_seen))]
    pub(crate) fn put(mut self, object: usize, semaphore: Semaphore) -> Semaphores
        requires { Held self × (object < length (sems_of self)) }
        ensures { result ≡ sems_as (put (sems_of self) (suc object) semaphore) }
    {
        self.records[object] = semaphore;
        self
    }

    // Which semaphore a number names.
    pub fn find(self, id: i32) -> Result<Target, Error>
        requires { Held self }
        ensures { result ≡ target_in room (sems_of self) (no id) }
    {
        let ordinal = domain::ordinal(id, MAX_SEMAPHORES).ok_or(Error::Id)?;
        if self.count < ordinal {
            return Err(Error::Noexs);
        }
        let object = ordinal - 1;
        let semaphore = self.get(object);
        Ok(Target {
            object,
            vector: semaphore.vector,
        })
    }

    // Set-vector: all four patterns are replaced.
    pub(crate) fn set_vector(mut self, object: usize, vector: Vector) -> Semaphores
        requires { Held self × (object < length (sems_of self)) }
        ensures { result ≡ sems_as (set_vector_of room (sems_of self) (suc object) vector) }
    {
        let mut semaphore = self.get(object);
        semaphore.vector = vector;
        self.put(object, semaphore)
    }
}
