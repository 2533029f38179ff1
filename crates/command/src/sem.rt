// The lines of semaphores: the entry's and the calls'.
use crate::entry::Entry;
use crate::flaw::Flaw;
use crate::numbers::Numbers;
use crate::parse::Command;
use crate::shape::{PATTERNS, Shape};
use model::sem::{SemaphoreCall, SemaphoreRequest};
use model::{Patience, Request};
use semaphore::entry::SemaphoreEntry;

// The command that a word of this kind names, with the line's numbers; None for any other word.
pub(crate) fn named(word: &[u8], numbers: Numbers) -> Option<Result<Command, Flaw>> {
    let command = match word {
        b"sem" => entry(numbers),
        b"sig_sem" => own(numbers, SemaphoreCall::Signal),
        b"pol_sem" => own(numbers, SemaphoreCall::Acquire(Patience::Polling)),
        b"wai_sem" => own(numbers, SemaphoreCall::Acquire(Patience::Forever)),
        b"ref_sem" => asked(numbers, SemaphoreRequest::Refer),
        b"sac_sem" => set_vector(numbers),
        _ => return None,
    };
    Some(command)
}

// Domain, attribute, start and max, and the vector if that is given. Each kind has its own names for its numbers.
fn entry(numbers: Numbers) -> Result<Command, Flaw> {
    numbers.counted(Shape::open(3, PATTERNS))?;
    let entry = SemaphoreEntry {
        domain: numbers.number(1)?,
        attribute: numbers.number(2)?,
        start: numbers.number(3)?,
        max: numbers.number(4)?,
        vector: numbers.choice(5)?,
    };
    Ok(Command::Entry(Entry::Semaphore(entry)))
}

// A call with no number of its own.
fn asked(numbers: Numbers, request: SemaphoreRequest) -> Result<Command, Flaw> {
    let (task, semaphore) = numbers.call(0)?;
    Ok(Command::Call(task, Request::Semaphore(semaphore, request)))
}

fn own(numbers: Numbers, call: SemaphoreCall) -> Result<Command, Flaw> {
    asked(numbers, SemaphoreRequest::Own(call))
}

// Each kind has its own request for it.
fn set_vector(numbers: Numbers) -> Result<Command, Flaw> {
    let (task, semaphore) = numbers.call(PATTERNS)?;
    let request = SemaphoreRequest::SetVector(numbers.vector(3)?);
    Ok(Command::Call(task, Request::Semaphore(semaphore, request)))
}
