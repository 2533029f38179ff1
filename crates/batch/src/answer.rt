// The words of an answer.
ghost use Rattle.std.specs.Prelude.{◌≡◌, ◌≤◌};
ghost use Rattle.itron.specs.Limits.{max_tasks};
ghost use Rattle.batch.specs.Encoding.{outcome_word, no_call};
ghost use Rattle.batch.specs.Made.{answer_made};

use crate::word::unsigned;
use kernel::state::{Answer, State};
use model::Outcome;

// Words of an answer: code, word, released task and its word; then what a refer tells: the first who waits, the first on the other side,
// the amount and the four patterns of the vector. What an answer does not have is 0.
pub const ANSWER_WORDS: usize = 11;

// The word of an answer's code where the caller waits; no code has this number.
pub const WAITING: u32 = 1;

// What is no call is refused by this code (μITRON4.0: no such function), which no call gives.
pub const E_RSFN: i32 = -10;

// An answer's words, and the state after it.
#[derive(Clone, Copy)]
pub struct Made {
    pub(crate) words: [u32; ANSWER_WORDS],
    pub(crate) state: State,
}

pub(crate) fn outcome_word(outcome: Outcome) -> u32
    ensures { result ≡ outcome_word outcome }
{
    match outcome {
        Outcome::Code(code) => unsigned(code),
        Outcome::Waiting => WAITING,
    }
}

// The words of what is no call.
pub(crate) fn no_call() -> [u32; ANSWER_WORDS]
    ensures { result ≡ no_call }
{
    let mut words = [0; ANSWER_WORDS];
    words[0] = unsigned(E_RSFN);
    words
}

// What a call answered.
pub(crate) fn answered(answer: Answer) -> Made
    requires { (answer.released.task ≤ max_tasks) × (answer.info.first ≤ max_tasks) × (answer.info.second ≤ max_tasks) }
    ensures { result ≡ answer_made answer }
{
    let outcome = answer.outcome;
    let released = answer.released;
    let info = answer.info;
    let vector = info.vector;
    let state = answer.state;
    let mut words = [0; ANSWER_WORDS];
    words[0] = outcome_word(outcome);
    words[1] = answer.word;
    words[2] = released.task as u32;
    words[3] = released.word;
    words[4] = info.first as u32;
    words[5] = info.second as u32;
    words[6] = info.amount;
    words[7] = vector.normal1;
    words[8] = vector.normal2;
    words[9] = vector.management;
    words[10] = vector.reference;
    Made { words, state }
}
