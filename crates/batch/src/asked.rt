// What a call's numbers ask for.
ghost use Rattle.std.specs.Prelude.{◌≡◌};
ghost use Rattle.batch.specs.Encoding.{item_of};
ghost use Rattle.model.specs.declared.Request.TheVariants.{Semaphore, Queue, Extended};
ghost use Rattle.batch.specs.Made.{meaning_of};

use crate::numbers::Numbers;
use model::dtq::{QueueCall, QueueRequest};
use model::sem::{SemaphoreCall, SemaphoreRequest};
use model::svc::ExtendedCall;
use model::{Patience, Request};

// Functions, in document 01's order; then what requests added.
pub const SIG_SEM: u32 = 1;

pub const POL_SEM: u32 = 2;

pub const WAI_SEM: u32 = 3;

pub const REF_SEM: u32 = 4;

pub const SAC_SEM: u32 = 5;

pub const PSND_DTQ: u32 = 6;

pub const SND_DTQ: u32 = 7;

pub const PRCV_DTQ: u32 = 8;

pub const RCV_DTQ: u32 = 9;

pub const REF_DTQ: u32 = 10;

pub const SAC_DTQ: u32 = 11;

pub const FSND_DTQ: u32 = 12;

pub const CAL_SVC: u32 = 13;

pub const RET_SVC: u32 = 14;

fn of_semaphore(object: i32, asked: SemaphoreRequest) -> Option<Request>
    ensures { result ≡ Some (Semaphore object asked) }
{
    Some(Request::Semaphore(object, asked))
}

fn of_queue(object: i32, asked: QueueRequest) -> Option<Request>
    ensures { result ≡ Some (Queue object asked) }
{
    Some(Request::Queue(object, asked))
}

fn of_level(asked: ExtendedCall) -> Option<Request>
    ensures { result ≡ Some (Extended asked) }
{
    Some(Request::Extended(asked))
}

// One line for each function; another number is no call.
pub(crate) fn request_of(numbers: Numbers) -> Option<Request>
    ensures { meaning_of numbers.caller result ≡ item_of numbers }
{
    let object = numbers.object;
    let word = numbers.word;
    let vector = numbers.vector;
    let function = numbers.function;
    match function {
        SIG_SEM => of_semaphore(object, SemaphoreRequest::Own(SemaphoreCall::Signal)),
        POL_SEM => of_semaphore(
            object,
            SemaphoreRequest::Own(SemaphoreCall::Acquire(Patience::Polling)),
        ),
        WAI_SEM => of_semaphore(
            object,
            SemaphoreRequest::Own(SemaphoreCall::Acquire(Patience::Forever)),
        ),
        REF_SEM => of_semaphore(object, SemaphoreRequest::Refer),
        SAC_SEM => of_semaphore(object, SemaphoreRequest::SetVector(vector)),
        PSND_DTQ => of_queue(
            object,
            QueueRequest::Own(QueueCall::Send(Patience::Polling, word)),
        ),
        SND_DTQ => of_queue(
            object,
            QueueRequest::Own(QueueCall::Send(Patience::Forever, word)),
        ),
        PRCV_DTQ => of_queue(
            object,
            QueueRequest::Own(QueueCall::Receive(Patience::Polling)),
        ),
        RCV_DTQ => of_queue(
            object,
            QueueRequest::Own(QueueCall::Receive(Patience::Forever)),
        ),
        REF_DTQ => of_queue(object, QueueRequest::Refer),
        SAC_DTQ => of_queue(object, QueueRequest::SetVector(vector)),
        FSND_DTQ => of_queue(object, QueueRequest::Own(QueueCall::ForcedSend(word))),
        CAL_SVC => of_level(ExtendedCall::Enter),
        RET_SVC => of_level(ExtendedCall::Leave),
        _ => None,
    }
}
