// What can be asked of a data queue, and what that does once its checks are passed (document 01, "Calls on an open gateway"; forced send: request T-05; priority order: request T-10).
ghost use Rattle.std.specs.Prelude.{◌≡◌, suc, ◌<◌, length};
ghost use Rattle.model.specs.Acts.{operation_of};
ghost use Rattle.model.specs.Answers as Model;
ghost use Rattle.model.specs.Queues.{act_of, operation, does, on_send, on_receive, on_force, told};
ghost use Rattle.tasks.specs.View.{entries_of, waits_of};
ghost use Rattle.tasks.specs.Held as TasksHeld;
ghost use Rattle.tasks.specs.Held.{Passed};
ghost use Rattle.dataqueue.specs.View.{queues_of};
ghost use Rattle.dataqueue.specs.Held.{Held};
ghost use Rattle.dataqueue.specs.Effects.{acted, effect_as};

use crate::state::Queues;
use access::vector::Operation;
use itron::code::{E_ILUSE, E_OK};
use model::check::Admitted;
use model::dtq::{QueueCall, QueueRequest};
use model::{Info, Patience, Reply, Side, attribute};
use tasks::effect::Effect;
use tasks::state::Tasks;
use tasks::task::Wait;

// Receivers stand as they came, whatever the attribute says.
pub const RECEIVERS_BY_PRIORITY: bool = false;

// Both sends.
#[tactic(auto, using(crate::proofs::Effects::sends))]
pub(crate) fn send(
    tasks: Tasks,
    queues: Queues,
    task: usize,
    object: usize,
    patience: Patience,
    word: u32,
) -> Effect<Queues>
    requires { TasksHeld.Held tasks × Held queues × TasksHeld.Free (entries_of tasks) (waits_of tasks) task × (object < length (queues_of queues)) }
    ensures { result ≡ effect_as (entries_of tasks) (on_send (waits_of tasks) (queues_of queues) (suc task) (suc object) word patience) }
{
    if let Some(receiver) = tasks.first(Side::Receiving, object, RECEIVERS_BY_PRIORITY) {
        return Effect::ended(tasks.wake(receiver.task, 0, word), queues);
    }
    if queues.has_room(object) {
        Effect::done(tasks, queues.push(object, word), 0)
    } else {
        Effect::ended(
            tasks.or_wait(task, Wait::Sending(object as u8, word), patience),
            queues,
        )
    }
}

// Both receives.
#[tactic(auto, using(crate::proofs::Effects::receives))]
pub(crate) fn receive(
    tasks: Tasks,
    queues: Queues,
    task: usize,
    object: usize,
    patience: Patience,
) -> Effect<Queues>
    requires { TasksHeld.Held tasks × Held queues × TasksHeld.Free (entries_of tasks) (waits_of tasks) task × (object < length (queues_of queues)) }
    ensures { result ≡ effect_as (entries_of tasks) (on_receive (entries_of tasks) (waits_of tasks) (queues_of queues) (suc task) (suc object) patience) }
{
    let queue = queues.records[object];
    let by_priority = attribute::by_priority(queue.attribute);
    let sender = tasks.first(Side::Sending, object, by_priority);
    if queue.len == 0 {
        return match sender {
            Some(first) => Effect::ended(tasks.wake(first.task, first.word, 0), queues),
            None => Effect::ended(
                tasks.or_wait(task, Wait::Receiving(object as u8), patience),
                queues,
            ),
        };
    }
    let word = queues.words[queue.first];
    match sender {
        Some(first) => Effect::ended(
            tasks.wake(first.task, word, 0),
            queues.refill(object, first.word),
        ),
        None => Effect::done(tasks, queues.pop(object), word),
    }
}

// Forced send. It takes no task: it never waits.
#[tactic(auto, using(crate::proofs::Effects::sends_forced))]
pub(crate) fn force(tasks: Tasks, queues: Queues, object: usize, word: u32) -> Effect<Queues>
    requires { TasksHeld.Held tasks × Held queues × (object < length (queues_of queues)) }
    ensures { result ≡ effect_as (entries_of tasks) (on_force (waits_of tasks) (queues_of queues) (suc object) word) }
{
    let queue = queues.records[object];
    if queue.capacity == 0 {
        return Effect::refused(tasks, queues, E_ILUSE);
    }
    if let Some(taker) = tasks.first(Side::Receiving, object, RECEIVERS_BY_PRIORITY) {
        return Effect::ended(tasks.wake(taker.task, 0, word), queues);
    }
    if queue.len < queue.capacity {
        return Effect::done(tasks, queues.push(object, word), 0);
    }
    Effect::done(tasks, queues.refill(object, word), 0)
}

// A data queue's own calls.
pub(crate) fn own(
    tasks: Tasks,
    queues: Queues,
    task: usize,
    object: usize,
    call: QueueCall,
) -> Effect<Queues>
    requires { TasksHeld.Held tasks × Held queues × TasksHeld.Free (entries_of tasks) (waits_of tasks) task × (object < length (queues_of queues)) }
    ensures { result ≡ effect_as (entries_of tasks) (does (entries_of tasks) (waits_of tasks) (queues_of queues) (suc task) (suc object) call) }
{
    match call {
        QueueCall::Send(patience, word) => send(tasks, queues, task, object, patience, word),
        QueueCall::Receive(patience) => receive(tasks, queues, task, object, patience),
        QueueCall::ForcedSend(word) => force(tasks, queues, object, word),
    }
}

// Refer.
pub(crate) fn refer(tasks: Tasks, queues: Queues, object: usize) -> Effect<Queues>
    requires { TasksHeld.Held tasks × Held queues × (object < length (queues_of queues)) }
    ensures { result ≡ effect_as (entries_of tasks) (Model.effect (Model.tells (told (entries_of tasks) (waits_of tasks) (queues_of queues) (suc object))) (waits_of tasks) (queues_of queues)) }
{
    let queue = queues.records[object];
    let by_priority = attribute::by_priority(queue.attribute);
    let first = tasks.first_number(Side::Sending, object, by_priority);
    let second = tasks.first_number(Side::Receiving, object, RECEIVERS_BY_PRIORITY);
    let amount = queue.len as u32;
    let vector = queue.vector;
    Effect {
        reply: Reply::plain(E_OK, 0),
        info: Info {
            first,
            second,
            amount,
            vector,
        },
        tasks,
        records: queues,
    }
}

// Which operation a request is judged as.
pub fn operation(request: QueueRequest) -> Operation
    ensures { result ≡ operation_of operation (act_of request) }
{
    match request {
        QueueRequest::Own(call) => match call {
            QueueCall::Send(_, _) => Operation::Normal1,
            QueueCall::Receive(_) => Operation::Normal2,
            QueueCall::ForcedSend(_) => Operation::Normal1,
        },
        QueueRequest::Refer => Operation::Reference,
        QueueRequest::SetVector(_) => Operation::Management,
    }
}

// What a request does, by what its checks found.
pub fn act(
    tasks: Tasks,
    queues: Queues,
    check: Result<Admitted, i32>,
    request: QueueRequest,
) -> Effect<Queues>
    requires { TasksHeld.Held tasks × Held queues × Passed tasks (length (queues_of queues)) check }
    ensures { result ≡ acted tasks queues (act_of request) check }
{
    let Admitted { task, object } = match check {
        Ok(admitted) => admitted,
        Err(code) => return Effect::refused(tasks, queues, code),
    };
    match request {
        QueueRequest::Own(call) => own(tasks, queues, task, object, call),
        QueueRequest::Refer => refer(tasks, queues, object),
        QueueRequest::SetVector(vector) => {
            Effect::done(tasks, queues.set_vector(object, vector), 0)
        }
    }
}
