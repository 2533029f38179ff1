// Extended service calls (document 02, T-03): how deep a task can go, as what it calls inside one, and what its level does not change.
ghost use Rattle.kernel.specs.Valid.{Valid};

use crate::areas::{Area, ask};
use crate::calls::Call::{
    CalSvc, PrcvDtq, PsndDtq, RcvDtq, RefDtq, RetSvc, SacDtq, SacSem, SigSem, WaiSem,
};
use crate::calls::{Call, Section, many, play, sections};
use crate::entries::Entry::Task;
use crate::entries::{close, table};
use crate::say::heading;
use kernel::state::State;
use model::svc::ExtendedCall;
use regions::flag::READ;
use std::io;

// Most of the way up and down.
const STEPS: u32 = 254;

const AT_THE_TOP: [Call; 4] = [CalSvc(2), CalSvc(2), RetSvc(2), CalSvc(2)];

const AT_THE_BOTTOM: [Call; 2] = [RetSvc(2), RetSvc(2)];

// Task 2 is of domain 2, which queue 1 and the management of semaphore 1 deny; another task's level is no help.
const RUNNING_DOMAIN: [Call; 10] = [
    PsndDtq(2, 1, 700),
    CalSvc(2),
    PsndDtq(2, 1, 700),
    RefDtq(2, 1),
    SacSem(2, 1, [2, 2, 0, 3]),
    RetSvc(2),
    PsndDtq(2, 1, 701),
    PrcvDtq(2, 1),
    CalSvc(1),
    PsndDtq(2, 1, 701),
];

// It is judged at its call: a receiver and a semaphore waiter that called inside are served after the vector was narrowed.
const WAITERS: [Call; 15] = [
    CalSvc(2),
    RcvDtq(2, 1),
    CalSvc(2),
    RetSvc(2),
    SacDtq(3, 1, [0; 4]),
    PsndDtq(3, 1, 702),
    RetSvc(2),
    RcvDtq(2, 1),
    CalSvc(2),
    WaiSem(2, 1),
    WaiSem(2, 1),
    SacSem(3, 1, [0; 4]),
    SigSem(3, 1),
    RetSvc(2),
    WaiSem(2, 1),
];

const SECTIONS: [Section; 2] = [
    Section(
        "Extended service calls: the running domain",
        &RUNNING_DOMAIN,
    ),
    Section(
        "Extended service calls: a waiter that called inside one",
        &WAITERS,
    ),
];

// Task 3 is the kernel's; domain 2 is not the kernel domain because its task is inside.
const KERNEL_TASK: [Call; 4] = [CalSvc(3), RetSvc(3), RetSvc(3), CalSvc(2)];

// Only a registered task of a closed table has a level to change.
const OPEN: [Call; 2] = [CalSvc(1), RetSvc(1)];

const CLOSED: [Call; 5] = [CalSvc(0), CalSvc(-1), CalSvc(2), RetSvc(2), CalSvc(1)];

// Up to 255 and over it, down to 0 and below it.
fn depth(rt: &impl Print, table: State) -> io::Result<()>
    requires { Valid table }
{
    heading(rt, "Extended service calls: how deep")?;
    let s = play(rt, table, &[RetSvc(2)])?;
    let s = many(rt, s, 2, ExtendedCall::Enter, STEPS)?;
    let s = play(rt, s, &AT_THE_TOP)?;
    let s = many(rt, s, 2, ExtendedCall::Leave, STEPS)?;
    play(rt, s, &AT_THE_BOTTOM)?;
    Ok(())
}

fn kernel_and_verdict(rt: &impl Print, table: State) -> io::Result<()>
    requires { Valid table }
{
    heading(rt, "Extended service calls: a kernel task, and the verdict")?;
    let s = play(rt, table, &KERNEL_TASK)?;
    ask(rt, s, &[Area(2, 0x2000, 1, READ)])
}

fn nobody(rt: &impl Print) -> io::Result<()> {
    heading(rt, "Extended service calls: who cannot enter")?;
    let s = play(rt, table(rt, &[Task(1, 1)])?, &OPEN)?;
    play(rt, close(rt, s)?, &CLOSED)?;
    Ok(())
}

pub fn all(rt: &impl Print, table: State) -> io::Result<()>
    requires { Valid table }
{
    depth(rt, table)?;
    sections(rt, table, &SECTIONS)?;
    kernel_and_verdict(rt, table)?;
    nobody(rt)
}
