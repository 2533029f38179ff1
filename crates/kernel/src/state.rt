// The state, and the answers that give it back.
ghost use Rattle.std.specs.Prelude.{◌≡◌};
ghost use Rattle.itron.specs.Codes.{code_of};
ghost use Rattle.kernel.specs.Answers.{entered};

use dataqueue::state::Queues;
use itron::error::{Error, code_of};
use levels::state::Levels;
use model::{Info, Outcome, Released};
use regions::state::Regions;
use semaphore::state::Semaphores;
use tasks::state::Tasks;

// Everything that the core holds; only the operations of this crate make one.
#[derive(Clone, Copy)]
pub struct State {
    // The number n of user domains.
    pub(crate) domains: usize,
    // No type of its own: document 01 has one state that goes in and comes back, and E_CTX for the wrong one.
    pub(crate) closed: bool,
    pub(crate) tasks: Tasks,
    pub(crate) levels: Levels,
    pub(crate) semaphores: Semaphores,
    pub(crate) queues: Queues,
    pub(crate) regions: Regions,
}

// What a call answers; `info` is what a refer tells, all zeros in any other answer.
#[derive(Clone, Copy)]
pub struct Answer {
    pub outcome: Outcome,
    pub word: u32,
    pub released: Released,
    pub info: Info,
    pub state: State,
}

// What fresh, an entry and closing answer.
#[derive(Clone, Copy)]
pub struct Entered {
    // An i32 by document 01 ("Where each form goes").
    pub code: i32,
    pub state: State,
}

impl State {
    // The answer of fresh, an entry or closing, by what its checks found.
    pub(crate) fn enter(self, checked: Result<(), Error>) -> Entered
        ensures { result ≡ entered (code_of checked) self }
    {
        Entered {
            code: code_of(checked),
            state: self,
        }
    }
}
