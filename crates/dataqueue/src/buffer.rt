// The buffers of the data queues.
ghost use Rattle.std.specs.Prelude.{◌≡◌, [], ◌∷◌, ◌++◌, suc, ◌+◌, ◌≤◌, ◌<◌, length, drop};
ghost use Rattle.itron.specs.Limits.{max_words};
ghost use Rattle.model.specs.Queues.{queue_in, set_buffer, has_room};
ghost use Rattle.dataqueue.specs.View.{queues_of};
ghost use Rattle.dataqueue.specs.Form.{queues_as};
ghost use Rattle.dataqueue.specs.Held.{Held};
ghost use Rattle.dataqueue.specs.Buffers.{close_up};

use crate::state::Queues;
use itron::limit::MAX_WORDS;

// Without the first of the words of a part: the others move up, and another comes last.
#[tactic(auto, using(crate::proofs::CloseUp::close_copied))]
pub(crate) fn close_up(words: &mut [u32; MAX_WORDS], first: usize, len: usize, word: u32)
    requires { (0 < len) × (first + len ≤ max_words) × (length words.old ≡ max_words) }
    ensures { words.new ≡ close_up first len word words.old }
{
    words.copy_within(first + 1..first + len, first);
    words[first + len - 1] = word;
}

impl Queues {
    // Whether one word more can be buffered.
    #[tactic(auto, using(crate::proofs::Links::record_seen))]
    pub(crate) fn has_room(self, object: usize) -> bool
        requires { Held self × (object < length (queues_of self)) }
        ensures { result ≡ has_room (queue_in (queues_of self) (suc object)) }
    {
        let queue = self.records[object];
        queue.len < queue.capacity
    }

    // A word goes last into a buffer that has room.
    #[tactic(auto, using(crate::proofs::Links::push_link, crate::proofs::Links::room_low))]
    pub(crate) fn push(mut self, object: usize, word: u32) -> Queues
        requires { Held self × (object < length (queues_of self)) × (length (queue_in (queues_of self) (suc object)).buffer < (queue_in (queues_of self) (suc object)).capacity) }
        ensures { result ≡ queues_as (set_buffer (queues_of self) (suc object) ((queue_in (queues_of self) (suc object)).buffer ++ (word ∷ []))) }
    {
        let queue = self.records[object];
        self.words[queue.first + queue.len] = word;
        self.records[object].len += 1;
        self
    }

    // The oldest word leaves a buffer that has one.
    #[tactic(auto, using(crate::proofs::Links::pop_link, crate::proofs::Links::buffer_some, crate::proofs::Links::buffer_low))]
    pub(crate) fn pop(mut self, object: usize) -> Queues
        requires { Held self × (object < length (queues_of self)) × (0 < length (queue_in (queues_of self) (suc object)).buffer) }
        ensures { result ≡ queues_as (set_buffer (queues_of self) (suc object) (drop 1 (queue_in (queues_of self) (suc object)).buffer)) }
    {
        let queue = self.records[object];
        close_up(&mut self.words, queue.first, queue.len, 0);
        self.records[object].len -= 1;
        self
    }

    // The oldest word leaves a buffer that has one, and another goes last into it.
    #[tactic(auto, using(crate::proofs::Links::refill_link, crate::proofs::Links::buffer_some, crate::proofs::Links::buffer_low))]
    pub(crate) fn refill(mut self, object: usize, word: u32) -> Queues
        requires { Held self × (object < length (queues_of self)) × (0 < length (queue_in (queues_of self) (suc object)).buffer) }
        ensures { result ≡ queues_as (set_buffer (queues_of self) (suc object) (drop 1 (queue_in (queues_of self) (suc object)).buffer ++ (word ∷ []))) }
    {
        let queue = self.records[object];
        close_up(&mut self.words, queue.first, queue.len, word);
        self
    }
}
