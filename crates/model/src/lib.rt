// The words that the kernel's code, its callers and its rules share (document 01). The rules are in specs/.
#![tactic(auto)]

ghost use Rattle.std.specs.Prelude.{◌≡◌};
ghost use Rattle.model.specs.Answers.{plain};

use crate::dtq::QueueRequest;
use crate::sem::SemaphoreRequest;
use crate::svc::ExtendedCall;
use access::vector::Vector;

pub mod attribute;
pub mod check;
pub mod dtq;
pub mod sem;
pub mod svc;

// What a call answers: a code, which is an i32 by document 01 ("Where each form goes"), or that the caller waits.
#[derive(Clone, Copy)]
pub enum Outcome {
    Code(i32),
    Waiting,
}

// A released task's number with the word that it gets; 0 and 0 for none, by document 01: where there is none, the number is 0.
#[derive(Clone, Copy)]
pub struct Released {
    pub task: usize,
    pub word: u32,
}

// What a call tells its caller: the outcome, the word if any, and at most one released task.
#[derive(Clone, Copy)]
pub struct Reply {
    pub outcome: Outcome,
    pub word: u32,
    pub released: Released,
}

impl Reply {
    // A code and a word, nobody released.
    pub fn plain(code: i32, word: u32) -> Reply
        ensures { result ≡ plain code word }
    {
        Reply {
            outcome: Outcome::Code(code),
            word,
            released: Released { task: 0, word: 0 },
        }
    }
}

// What a refer tells of an object: the first who waits on it (0 if none), of a queue the first who waits to send; the first on its
// other side, of a queue who waits to receive; a semaphore's count, a queue's number of buffered words; its vector.
#[derive(Clone, Copy)]
pub struct Info {
    pub first: usize,
    pub second: usize,
    pub amount: u32,
    pub vector: Vector,
}

impl Info {
    // What an answer has that is no refer's, or a refused one's.
    pub const NONE: Info = Info {
        first: 0,
        second: 0,
        amount: 0,
        vector: Vector::KERNEL,
    };
}

// Whether a call that cannot be served at once gives up or waits.
#[derive(Clone, Copy)]
pub enum Patience {
    Polling,
    Forever,
}

// What a task can wait for: a semaphore, to receive from a queue, or to send to one.
#[derive(Clone, Copy, PartialEq, Eq)]
pub enum Side {
    OnSem,
    Receiving,
    Sending,
}

// A call's object by its kind and number, and what is asked of it; or what the caller does to its own level.
#[derive(Clone, Copy)]
pub enum Request {
    Semaphore(i32, SemaphoreRequest),
    Queue(i32, QueueRequest),
    Extended(ExtendedCall),
}
