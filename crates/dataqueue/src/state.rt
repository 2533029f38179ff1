// All data queues, and what is read of them.
ghost use Rattle.std.specs.Prelude.{◌≡◌, [], suc, ◌<◌, length, get_or};
ghost use Rattle.model.specs.Lists.{at};
ghost use Rattle.model.specs.State.{no};
ghost use Rattle.model.specs.Rooms.{set_vector_of};
ghost use Rattle.model.specs.Queues.{queue_in, room};
ghost use Rattle.model.specs.Checks.{target_in};
ghost use Rattle.dataqueue.specs.View.{queues_of, info_of};
ghost use Rattle.dataqueue.specs.Form.{no_record, laid, queues_as};
ghost use Rattle.dataqueue.specs.Held.{Held};

use access::domain;
use access::vector::Vector;
use itron::error::Error;
use itron::limit::{MAX_QUEUES, MAX_WORDS};
use model::check::Target;

// A data queue: its buffered words stand at the start of its part of `words`, the oldest first.
#[derive(Clone, Copy)]
pub struct Queue {
    pub(crate) domain: i32,
    pub(crate) attribute: u32,
    pub(crate) first: usize,
    pub(crate) len: usize,
    pub(crate) capacity: usize,
    pub(crate) vector: Vector,
}

impl Queue {
    // What an unused cell holds.
    pub(crate) const NONE: Queue = Queue {
        domain: 0,
        attribute: 0,
        first: 0,
        len: 0,
        capacity: 0,
        vector: Vector::KERNEL,
    };
}

// The parts stand one behind the other; cells that no queue uses are 0.
#[derive(Clone, Copy)]
pub struct Queues {
    pub(crate) count: usize,
    pub(crate) records: [Queue; MAX_QUEUES],
    pub(crate) words: [u32; MAX_WORDS],
}

// What is seen of a queue but for its words.
#[derive(Clone, Copy)]
pub struct QueueInfo {
    pub domain: i32,
    pub attribute: u32,
    pub capacity: usize,
    pub count: usize,
    pub vector: Vector,
}

impl Queues {
    // No queue.
    #[tactic(auto, unfolding(crate::specs::Form::queues_as))]
    pub fn empty() -> Queues
        ensures { result ≡ queues_as [] }
    {
        Queues {
            count: 0,
            records: [Queue::NONE; MAX_QUEUES],
            words: [0; MAX_WORDS],
        }
    }

    // How many queues there are.
    #[tactic(auto, using(crate::proofs::Links::count_seen))]
    pub fn len(self) -> usize
        requires { Held self }
        ensures { result ≡ length (queues_of self) }
    {
        self.count
    }

    // The vector that calls on a queue are judged by.
    #[tactic(auto, using(crate::proofs::Links::record_seen))]
    pub(crate) fn vector(self, object: usize) -> Vector
        requires { Held self × (object < length (queues_of self)) }
        ensures { result ≡ (queue_in (queues_of self) (suc object)).vector }
    {
        self.records[object].vector
    }

    // Which queue a number names.
    pub fn find(self, id: i32) -> Result<Target, Error>
        requires { Held self }
        ensures { result ≡ target_in room (queues_of self) (no id) }
    {
        let ordinal = domain::ordinal(id, MAX_QUEUES).ok_or(Error::Id)?;
        if self.count < ordinal {
            return Err(Error::Noexs);
        }
        let object = ordinal - 1;
        let vector = self.vector(object);
        Ok(Target { object, vector })
    }

    // Set-vector: all four patterns are replaced.
    #[tactic(auto, using(crate::proofs::Links::vector_link))]
    pub(crate) fn set_vector(mut self, object: usize, vector: Vector) -> Queues
        requires { Held self × (object < length (queues_of self)) }
        ensures { result ≡ queues_as (set_vector_of room (queues_of self) (suc object) vector) }
    {
        self.records[object].vector = vector;
        self
    }

    // The record with a number; all zeros where there is none.
    #[tactic(auto, using(crate::proofs::Links::record_at))]
    pub(crate) fn record_of(self, number: usize) -> Queue
        requires { Held self }
        ensures { result ≡ at no_record (laid 0 (queues_of self)) number }
    {
        let Some(object) = number.checked_sub(1) else {
            return Queue::NONE;
        };
        self.records.get(object).copied().unwrap_or(Queue::NONE)
    }

    // The queue with a number; all zeros where there is none.
    pub fn queue(self, number: usize) -> QueueInfo
        requires { Held self }
        ensures { result ≡ info_of (queue_in (queues_of self) number) }
    {
        let queue = self.record_of(number);
        QueueInfo {
            domain: queue.domain,
            attribute: queue.attribute,
            capacity: queue.capacity,
            count: queue.len,
            vector: queue.vector,
        }
    }

    // The buffered word with k older ones before it; 0 where there is none.
    #[tactic(auto, using(crate::proofs::Links::part_at, crate::proofs::Links::queue_seen_at))]
    pub fn word(self, number: usize, k: usize) -> u32
        requires { Held self }
        ensures { result ≡ get_or (queue_in (queues_of self) number).buffer k 0 }
    {
        let queue = self.record_of(number);
        let words = &self.words[queue.first..queue.first + queue.len];
        words.get(k).copied().unwrap_or(0)
    }
}
