// A list of calls, made one after the other; each gets the state that the one before gave.
ghost use Rattle.std.specs.Prelude.{◌≡◌, ◌+◌, ◌≤◌, ◌<◌, length};
ghost use Rattle.std.proofs.Math.Seq.{paste};
ghost use Rattle.kernel.specs.Valid.{Valid};
ghost use Rattle.batch.specs.Encoding.{answer_words, groups, answerable, item_at};
ghost use Rattle.batch.specs.Made.{Performs};
ghost use Rattle.batch.specs.Runs.{Runs};

use crate::answer::{ANSWER_WORDS, Made};
use crate::numbers::{CALL_WORDS, read};
use crate::perform::{perform, refused};
use kernel::state::State;

// How many were answered, and the state after them.
#[derive(Clone, Copy)]
pub struct Ran {
    pub answered: usize,
    pub state: State,
}

// The calls that a slice holds; what is left behind the last whole one counts as one.
pub(crate) fn held(words: usize) -> usize
    ensures { result ≡ groups words }
{
    let whole = words / CALL_WORDS;
    if words % CALL_WORDS == 0 {
        return whole;
    }
    whole + 1
}

// As many as are held and have room for their answers.
pub(crate) fn count(calls: usize, answers: usize) -> usize
    ensures { result ≡ answerable calls answers }
{
    let held = held(calls);
    let room = answers / ANSWER_WORDS;
    if room < held { room } else { held }
}

// The k-th request of a slice, counted from 0, made on the state.
pub(crate) fn step(state: State, calls: &[u32], k: usize) -> Made
    requires { Valid state × (k < groups (length calls.now)) }
    ensures { Performs state (item_at calls.now k) result }
{
    let at = k * CALL_WORDS;
    if calls.len() < at + CALL_WORDS {
        return refused(state);
    }
    perform(state, read(calls, at))
}

// An answer's words go into a slice from a place on.
pub(crate) fn write(answers: &mut [u32], at: usize, words: [u32; ANSWER_WORDS])
    requires { at + answer_words ≤ length answers.old }
    ensures { answers.new ≡ paste answers.old at words answer_words }
{
    answers[at..at + ANSWER_WORDS].copy_from_slice(&words);
}

// All calls that a slice holds, as far as their answers have room in another.
pub fn run(mut state: State, calls: &[u32], answers: &mut [u32]) -> Ran
    requires { Valid state }
    ensures { Runs state calls.now answers.old answers.new result }
{
    let made = count(calls.len(), answers.len());
    for k in 0..made {
        let next = step(state, calls, k);
        state = next.state;
        write(answers, k * ANSWER_WORDS, next.words);
    }
    Ran {
        answered: made,
        state,
    }
}
