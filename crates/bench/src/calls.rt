// The calls on a closed table, each with its line.
ghost use Rattle.std.specs.Prelude.{IfOk};
ghost use Rattle.kernel.specs.Valid.{Valid};

use crate::names::{Listed, Patterns, vector};
use crate::say;
use access::domain::ordinal;
use itron::code::E_OK;
use itron::limit::MAX_TASKS;
use kernel::state::{Answer, State};
use model::svc::ExtendedCall;
use model::{Outcome, Request};
use std::{fmt, io};

// A call by its operation: the task, the number of its object, and a word or the patterns of a vector.
#[derive(Clone, Copy)]
pub enum Call {
    SigSem(i32, i32),
    PolSem(i32, i32),
    WaiSem(i32, i32),
    RefSem(i32, i32),
    SacSem(i32, i32, Patterns),
    PsndDtq(i32, i32, u32),
    SndDtq(i32, i32, u32),
    FsndDtq(i32, i32, u32),
    PrcvDtq(i32, i32),
    RcvDtq(i32, i32),
    RefDtq(i32, i32),
    SacDtq(i32, i32, Patterns),
    CalSvc(i32),
    RetSvc(i32),
}

impl Call {
    fn made(self, s: State) -> Answer
        requires { Valid s }
        ensures { Valid result.state }
    {
        match self {
            Call::SigSem(task, id) => s.sig_sem(task, id),
            Call::PolSem(task, id) => s.pol_sem(task, id),
            Call::WaiSem(task, id) => s.wai_sem(task, id),
            Call::RefSem(task, id) => s.ref_sem(task, id),
            Call::SacSem(task, id, patterns) => s.sac_sem(task, id, vector(patterns)),
            Call::PsndDtq(task, id, word) => s.psnd_dtq(task, id, word),
            Call::SndDtq(task, id, word) => s.snd_dtq(task, id, word),
            Call::FsndDtq(task, id, word) => s.fsnd_dtq(task, id, word),
            Call::PrcvDtq(task, id) => s.prcv_dtq(task, id),
            Call::RcvDtq(task, id) => s.rcv_dtq(task, id),
            Call::RefDtq(task, id) => s.ref_dtq(task, id),
            Call::SacDtq(task, id, patterns) => s.sac_dtq(task, id, vector(patterns)),
            Call::CalSvc(task) => s.cal_svc(task),
            Call::RetSvc(task) => s.ret_svc(task),
        }
    }
}

impl fmt::Display for Call {
    fn fmt<W: fmt::Write>(&self, f: &mut fmt::Formatter<W>) -> fmt::Result {
        match *self {
            Call::SigSem(task, id) => write!(f, "task {task} signals semaphore {id}"),
            Call::PolSem(task, id) => write!(f, "task {task} polls semaphore {id}"),
            Call::WaiSem(task, id) => write!(f, "task {task} waits for semaphore {id}"),
            Call::RefSem(task, id) => write!(f, "task {task} refers to semaphore {id}"),
            Call::SacSem(task, id, patterns) => write!(
                f,
                "task {task} sets the vector of semaphore {id} to {}",
                Listed(vector(patterns))
            ),
            Call::PsndDtq(task, id, word) => {
                write!(f, "task {task} poll-sends to queue {id} the word {word}")
            }
            Call::SndDtq(task, id, word) => {
                write!(f, "task {task} sends to queue {id} the word {word}")
            }
            Call::FsndDtq(task, id, word) => {
                write!(
                    f,
                    "task {task} sends by force to queue {id} the word {word}"
                )
            }
            Call::PrcvDtq(task, id) => write!(f, "task {task} poll-receives from queue {id}"),
            Call::RcvDtq(task, id) => write!(f, "task {task} receives from queue {id}"),
            Call::RefDtq(task, id) => write!(f, "task {task} refers to queue {id}"),
            Call::SacDtq(task, id, patterns) => write!(
                f,
                "task {task} sets the vector of queue {id} to {}",
                Listed(vector(patterns))
            ),
            Call::CalSvc(task) => write!(f, "task {task} enters a service call"),
            Call::RetSvc(task) => write!(f, "task {task} leaves a service call"),
        }
    }
}

// A task's level, at the end of a line.
fn tell_level(rt: &impl Print, s: State, task: i32) -> io::Result<()>
    requires { Valid s }
{
    println!(rt;
        ", level {}",
        s.level(ordinal(task, MAX_TASKS).unwrap_or(0))
    )
}

// A call with its line; a refer's reply is the code alone, and then comes what it tells. The state is changed in place: measured, handing it
// back in a Result costs a copy more.
fn make(rt: &impl Print, s: &mut State, call: Call) -> io::Result<()>
    requires { Valid s.old }
    ensures { Valid s.new }
{
    print!(rt; "  {call}")?;
    let answer = call.made(*s);
    *s = answer.state;
    say::reply(rt, &answer)?;
    match call {
        Call::RefSem(_, _) => say::semaphore(rt, answer.info),
        Call::RefDtq(_, _) => say::queue(rt, answer.info),
        Call::CalSvc(task) => tell_level(rt, answer.state, task),
        Call::RetSvc(task) => tell_level(rt, answer.state, task),
        _ => rt.println(""),
    }
}

// These calls, one after the other.
pub fn play(rt: &impl Print, mut s: State, calls: &[Call]) -> io::Result<State>
    requires { Valid s }
    ensures { IfOk result Valid }
{
    for call in calls {
        make(rt, &mut s, *call)?;
    }
    Ok(s)
}

// Calls under their heading.
#[derive(Clone, Copy)]
pub struct Section(pub &'static str, pub &'static [Call]);

// Each section begins with the same table.
pub fn sections(rt: &impl Print, table: State, sections: &[Section]) -> io::Result<()>
    requires { Valid table }
{
    for Section(title, calls) in sections {
        say::heading(rt, title)?;
        play(rt, table, calls)?;
    }
    Ok(())
}

// Many calls of a task on its level, in one line. Each is made by its request: measured, a choice among all calls in every round costs two
// copies of the state more.
pub fn many(
    rt: &impl Print,
    mut s: State,
    task: i32,
    asked: ExtendedCall,
    times: u32,
) -> io::Result<State>
    requires { Valid s }
    ensures { IfOk result Valid }
{
    let mut count: u32 = 0;
    for _ in 0..times {
        let answer = s.call(task, Request::Extended(asked));
        s = answer.state;
        if let Outcome::Code(E_OK) = answer.outcome {
            count = count.wrapping_add(1);
        }
    }
    let call = match asked {
        ExtendedCall::Enter => Call::CalSvc(task),
        ExtendedCall::Leave => Call::RetSvc(task),
    };
    print!(rt; "  {call} {times} times: E_OK {count} times")?;
    tell_level(rt, s, task)?;
    Ok(s)
}
