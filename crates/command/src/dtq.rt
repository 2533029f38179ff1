// The lines of data queues: the entry's and the calls'.
use crate::entry::Entry;
use crate::flaw::Flaw;
use crate::numbers::Numbers;
use crate::parse::Command;
use crate::shape::{PATTERNS, Shape};
use dataqueue::entry::QueueEntry;
use model::dtq::{QueueCall, QueueRequest};
use model::{Patience, Request};

// The command that a word of this kind names, with the line's numbers; None for any other word.
pub(crate) fn named(word: &[u8], numbers: Numbers) -> Option<Result<Command, Flaw>> {
    let command = match word {
        b"dtq" => entry(numbers),
        b"psnd_dtq" => send(numbers, |word| QueueCall::Send(Patience::Polling, word)),
        b"snd_dtq" => send(numbers, |word| QueueCall::Send(Patience::Forever, word)),
        b"fsnd_dtq" => send(numbers, QueueCall::ForcedSend),
        b"prcv_dtq" => receive(numbers, Patience::Polling),
        b"rcv_dtq" => receive(numbers, Patience::Forever),
        b"ref_dtq" => asked(numbers, QueueRequest::Refer),
        b"sac_dtq" => set_vector(numbers),
        _ => return None,
    };
    Some(command)
}

// Domain, attribute and capacity, and the vector if that is given.
fn entry(numbers: Numbers) -> Result<Command, Flaw> {
    numbers.counted(Shape::open(2, PATTERNS))?;
    let entry = QueueEntry {
        domain: numbers.number(1)?,
        attribute: numbers.number(2)?,
        capacity: numbers.number(3)?,
        vector: numbers.choice(4)?,
    };
    Ok(Command::Entry(Entry::Queue(entry)))
}

// A call with no number of its own.
fn asked(numbers: Numbers, request: QueueRequest) -> Result<Command, Flaw> {
    let (task, queue) = numbers.call(0)?;
    Ok(Command::Call(task, Request::Queue(queue, request)))
}

fn receive(numbers: Numbers, patience: Patience) -> Result<Command, Flaw> {
    asked(numbers, QueueRequest::Own(QueueCall::Receive(patience)))
}

// The word to be sent stands behind the task's number and the queue's.
fn send<F: FnOnce(u32) -> QueueCall>(numbers: Numbers, call: F) -> Result<Command, Flaw>
    requires { F.IsAlwaysCallable call }
{
    let (task, queue) = numbers.call(1)?;
    let request = QueueRequest::Own(call(numbers.number(3)?));
    Ok(Command::Call(task, Request::Queue(queue, request)))
}

// Each kind has its own request for it.
fn set_vector(numbers: Numbers) -> Result<Command, Flaw> {
    let (task, queue) = numbers.call(PATTERNS)?;
    let request = QueueRequest::SetVector(numbers.vector(3)?);
    Ok(Command::Call(task, Request::Queue(queue, request)))
}
