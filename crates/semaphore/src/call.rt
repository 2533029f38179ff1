// What can be asked of a semaphore, and what that does once its checks are passed (document 01, "Calls on an open gateway"; priority order: request T-10).
ghost use Rattle.std.specs.Prelude.{◌≡◌, suc, ◌<◌, length};
ghost use Rattle.model.specs.Acts.{operation_of};
ghost use Rattle.model.specs.Answers as Model;
ghost use Rattle.model.specs.Semaphores.{act_of, operation, does, on_signal, on_acquire, told};
ghost use Rattle.tasks.specs.View.{entries_of, waits_of};
ghost use Rattle.tasks.specs.Held as TasksHeld;
ghost use Rattle.tasks.specs.Held.{Passed};
ghost use Rattle.semaphore.specs.View.{sems_of};
ghost use Rattle.semaphore.specs.Held.{Held};
ghost use Rattle.semaphore.specs.Effects.{acted, effect_as};

use crate::state::Semaphores;
use access::vector::Operation;
use itron::code::{E_OK, E_QOVR};
use model::check::Admitted;
use model::sem::{SemaphoreCall, SemaphoreRequest};
use model::{Info, Patience, Reply, Side, attribute};
use tasks::effect::Effect;
use tasks::state::Tasks;
use tasks::task::Wait;

// Signal.
#[tactic(auto, using(crate::proofs::Back::count_seen))]
pub(crate) fn signal(tasks: Tasks, semaphores: Semaphores, object: usize) -> Effect<Semaphores>
    requires { TasksHeld.Held tasks × Held semaphores × (object < length (sems_of semaphores)) }
    ensures { result ≡ effect_as (entries_of tasks) (on_signal (entries_of tasks) (waits_of tasks) (sems_of semaphores) (suc object)) }
{
    // The attribute says who is first. Measured: reading it copies the semaphores once, here and by `get`.
    let mut semaphore = semaphores.records[object];
    let by_priority = attribute::by_priority(semaphore.attribute);
    if let Some(first) = tasks.first(Side::OnSem, object, by_priority) {
        return Effect::ended(tasks.wake(first.task, 0, 0), semaphores);
    }
    if semaphore.count >= semaphore.max {
        return Effect::refused(tasks, semaphores, E_QOVR);
    }
    semaphore.count += 1;
    Effect::done(tasks, semaphores.put(object, semaphore), 0)
}

// Poll and wait.
#[tactic(auto, using(crate::proofs::Back::count_seen))]
pub(crate) fn acquire(
    tasks: Tasks,
    semaphores: Semaphores,
    task: usize,
    object: usize,
    patience: Patience,
) -> Effect<Semaphores>
    requires { TasksHeld.Held tasks × Held semaphores × TasksHeld.Free (entries_of tasks) (waits_of tasks) task × (object < length (sems_of semaphores)) }
    ensures { result ≡ effect_as (entries_of tasks) (on_acquire (waits_of tasks) (sems_of semaphores) (suc task) (suc object) patience) }
{
    let mut semaphore = semaphores.get(object);
    if 0 < semaphore.count {
        semaphore.count -= 1;
        return Effect::done(tasks, semaphores.put(object, semaphore), 0);
    }
    Effect::ended(
        tasks.or_wait(task, Wait::OnSem(object as u8), patience),
        semaphores,
    )
}

// A semaphore's own calls.
pub(crate) fn own(
    tasks: Tasks,
    semaphores: Semaphores,
    task: usize,
    object: usize,
    call: SemaphoreCall,
) -> Effect<Semaphores>
    requires { TasksHeld.Held tasks × Held semaphores × TasksHeld.Free (entries_of tasks) (waits_of tasks) task × (object < length (sems_of semaphores)) }
    ensures { result ≡ effect_as (entries_of tasks) (does (entries_of tasks) (waits_of tasks) (sems_of semaphores) (suc task) (suc object) call) }
{
    match call {
        SemaphoreCall::Signal => signal(tasks, semaphores, object),
        SemaphoreCall::Acquire(patience) => acquire(tasks, semaphores, task, object, patience),
    }
}

// Refer.
#[tactic(auto, using(crate::proofs::Back::count_seen))]
pub(crate) fn refer(tasks: Tasks, semaphores: Semaphores, object: usize) -> Effect<Semaphores>
    requires { TasksHeld.Held tasks × Held semaphores × (object < length (sems_of semaphores)) }
    ensures { result ≡ effect_as (entries_of tasks) (Model.effect (Model.tells (told (entries_of tasks) (waits_of tasks) (sems_of semaphores) (suc object))) (waits_of tasks) (sems_of semaphores)) }
{
    let semaphore = semaphores.records[object];
    let by_priority = attribute::by_priority(semaphore.attribute);
    let first = tasks.first_number(Side::OnSem, object, by_priority);
    let vector = semaphore.vector;
    Effect {
        reply: Reply::plain(E_OK, 0),
        info: Info {
            first,
            second: 0,
            amount: semaphore.count,
            vector,
        },
        tasks,
        records: semaphores,
    }
}

// Which operation a request is judged as.
pub fn operation(request: SemaphoreRequest) -> Operation
    ensures { result ≡ operation_of operation (act_of request) }
{
    match request {
        SemaphoreRequest::Own(call) => match call {
            SemaphoreCall::Signal => Operation::Normal1,
            SemaphoreCall::Acquire(_) => Operation::Normal2,
        },
        SemaphoreRequest::Refer => Operation::Reference,
        SemaphoreRequest::SetVector(_) => Operation::Management,
    }
}

// What a request does, by what its checks found.
pub fn act(
    tasks: Tasks,
    semaphores: Semaphores,
    check: Result<Admitted, i32>,
    request: SemaphoreRequest,
) -> Effect<Semaphores>
    requires { TasksHeld.Held tasks × Held semaphores × Passed tasks (length (sems_of semaphores)) check }
    ensures { result ≡ acted tasks semaphores (act_of request) check }
{
    let Admitted { task, object } = match check {
        Ok(admitted) => admitted,
        Err(code) => return Effect::refused(tasks, semaphores, code),
    };
    match request {
        SemaphoreRequest::Own(call) => own(tasks, semaphores, task, object, call),
        SemaphoreRequest::Refer => refer(tasks, semaphores, object),
        SemaphoreRequest::SetVector(vector) => {
            Effect::done(tasks, semaphores.set_vector(object, vector), 0)
        }
    }
}
