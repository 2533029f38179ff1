// The entry of a data queue (document 01, "Building the table").
ghost use Rattle.std.specs.Prelude.{◌≡◌, [], ◌∷◌, ◌++◌, ◌+◌, ◌≤◌, ◌<◌, length};
ghost use Rattle.itron.specs.Limits.{max_queues, max_words};
ghost use Rattle.std.specs.Prelude.{Some as Given};
ghost use Rattle.model.specs.Queues.{words_used, new_queue};
ghost use Rattle.dataqueue.specs.View.{queues_of};
ghost use Rattle.dataqueue.specs.Form.{queues_as};
ghost use Rattle.dataqueue.specs.Held.{Held};
ghost use Rattle.model.specs.Checks.{passed};
ghost use Rattle.dataqueue.specs.Entries.{entry_check};

use crate::state::{Queue, Queues};
use access::vector::Vector;
use itron::error::Error;
use itron::limit::{MAX_CAPACITY, MAX_WORDS};
use model::attribute;

// An entry as given.
#[derive(Clone, Copy)]
pub struct QueueEntry {
    pub domain: i32,
    pub attribute: u32,
    pub capacity: u32,
    pub vector: Option<Vector>,
}

impl Queues {
    // The words that all queues together can hold: where the part of the next one starts.
    #[tactic(auto, using(crate::proofs::Entries::used_none, crate::proofs::Entries::used_some, crate::proofs::Entries::used_low))]
    pub(crate) fn words_used(self) -> usize
        requires { Held self }
        ensures { result ≡ words_used (queues_of self) }
    {
        match self.records[..self.count].last() {
            Some(queue) => queue.first + queue.capacity,
            None => 0,
        }
    }

    // The checks of an entry's own numbers, first hit wins.
    pub fn check(self, attribute: u32, capacity: u32) -> Result<(), Error>
        requires { Held self }
        ensures { result ≡ passed (entry_check (queues_of self) attribute capacity) }
    {
        if !attribute::is_order(attribute) {
            return Err(Error::Rsatr);
        }
        if MAX_CAPACITY < capacity {
            return Err(Error::Par);
        }
        if MAX_WORDS < self.words_used() + capacity as usize {
            return Err(Error::Nomem);
        }
        Ok(())
    }

    // One queue more, which is empty.
    #[tactic(auto, using(crate::proofs::Links::count_seen, crate::proofs::Entries::add_link))]
    pub(crate) fn add(
        mut self,
        domain: i32,
        attribute: u32,
        capacity: u32,
        vector: Vector,
    ) -> Queues
        requires { Held self × (length (queues_of self) < max_queues) × (words_used (queues_of self) + capacity ≤ max_words) }
        ensures { result ≡ queues_as (queues_of self ++ (new_queue domain attribute capacity (Given vector) ∷ [])) }
    {
        let first = self.words_used();
        self.records[self.count] = Queue {
            domain,
            attribute,
            first,
            len: 0,
            capacity: capacity as usize,
            vector,
        };
        self.count += 1;
        self
    }

    // One queue more, as given, its default vector resolved.
    pub fn register(self, given: QueueEntry) -> Queues
        requires { Held self × (length (queues_of self) < max_queues) × (words_used (queues_of self) + given.capacity ≤ max_words) }
        ensures { result ≡ queues_as (queues_of self ++ (new_queue given.domain given.attribute given.capacity given.vector ∷ [])) }
    {
        let vector = Vector::resolved(given.vector, given.domain);
        self.add(given.domain, given.attribute, given.capacity, vector)
    }
}
