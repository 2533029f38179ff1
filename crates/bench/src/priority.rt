// Priority order (document 02, T-10): which priorities and attributes are taken, and who is served first.
use crate::calls::Call::{
    FsndDtq, PrcvDtq, PsndDtq, RcvDtq, RefDtq, RefSem, SigSem, SndDtq, WaiSem,
};
use crate::calls::{Call, Section, sections};
use crate::entries::Entry::{Queue, Semaphore, Task};
use crate::entries::{Entry, close, enter, table};
use crate::say::heading;
use access::domain::{KERNEL_DOMAIN, NO_DOMAIN};
use itron::attribute::{TA_TFIFO, TA_TPRI};
use std::io;

// The domain comes before the priority, a closed table before both; attributes 2 and 3 are refused.
const TAKEN: [Entry; 11] = [
    Task(1, 0),
    Task(1, 1),
    Task(1, 16),
    Task(1, 17),
    Task(3, 0),
    Semaphore(NO_DOMAIN, TA_TPRI, 0, 1, None),
    Semaphore(NO_DOMAIN, 2, 0, 1, None),
    Semaphore(NO_DOMAIN, 3, 0, 1, None),
    Queue(NO_DOMAIN, TA_TPRI, 0, None),
    Queue(NO_DOMAIN, 2, 0, None),
    Queue(NO_DOMAIN, 3, 0, None),
];

const TOO_LATE: [Entry; 1] = [Task(3, 0)];

// Task 5 serves the others. Semaphore 1 and queues 1 and 3 are in priority order; queue 3 has no room.
const TABLE: [Entry; 10] = [
    Task(1, 3),
    Task(2, 1),
    Task(1, 3),
    Task(KERNEL_DOMAIN, 16),
    Task(KERNEL_DOMAIN, 1),
    Semaphore(NO_DOMAIN, TA_TPRI, 0, 2, Some([3, 3, 0, 3])),
    Semaphore(NO_DOMAIN, TA_TFIFO, 0, 2, Some([3, 3, 0, 3])),
    Queue(NO_DOMAIN, TA_TPRI, 1, Some([3, 3, 0, 3])),
    Queue(NO_DOMAIN, TA_TFIFO, 1, Some([3, 3, 0, 3])),
    Queue(NO_DOMAIN, TA_TPRI, 0, Some([3, 3, 0, 3])),
];

// The later comes first where it is more urgent; task 1, which waits again, stands behind its equal.
const WAITERS: [Call; 14] = [
    WaiSem(4, 1),
    WaiSem(1, 1),
    RefSem(5, 1),
    WaiSem(3, 1),
    WaiSem(2, 1),
    RefSem(5, 1),
    SigSem(5, 1),
    SigSem(5, 1),
    WaiSem(1, 1),
    SigSem(5, 1),
    SigSem(5, 1),
    SigSem(5, 1),
    SigSem(5, 1),
    RefSem(5, 1),
];

// The forced word stands before those of the waiting senders, however urgent they are.
const SENDERS: [Call; 14] = [
    PsndDtq(5, 1, 700),
    SndDtq(4, 1, 704),
    SndDtq(1, 1, 701),
    SndDtq(3, 1, 703),
    RefDtq(5, 1),
    SndDtq(2, 1, 702),
    RefDtq(5, 1),
    FsndDtq(5, 1, 705),
    PrcvDtq(5, 1),
    PrcvDtq(5, 1),
    PrcvDtq(5, 1),
    PrcvDtq(5, 1),
    PrcvDtq(5, 1),
    PrcvDtq(5, 1),
];

// Words go from hand to hand in the same order.
const CAPACITY_0: [Call; 6] = [
    SndDtq(1, 3, 701),
    SndDtq(2, 3, 702),
    SndDtq(3, 3, 703),
    PrcvDtq(5, 3),
    PrcvDtq(5, 3),
    PrcvDtq(5, 3),
];

// The attribute orders senders alone.
const RECEIVERS: [Call; 7] = [
    RcvDtq(4, 1),
    RcvDtq(1, 1),
    RcvDtq(2, 1),
    RefDtq(5, 1),
    PsndDtq(5, 1, 700),
    SndDtq(5, 1, 701),
    FsndDtq(5, 1, 702),
];

// Semaphore 2 and queue 2 ask nobody's priority.
const FIRST_COME: [Call; 14] = [
    WaiSem(4, 2),
    WaiSem(1, 2),
    WaiSem(2, 2),
    RefSem(5, 2),
    SigSem(5, 2),
    SigSem(5, 2),
    SigSem(5, 2),
    PsndDtq(5, 2, 700),
    SndDtq(4, 2, 704),
    SndDtq(2, 2, 702),
    RefDtq(5, 2),
    PrcvDtq(5, 2),
    PrcvDtq(5, 2),
    PrcvDtq(5, 2),
];

const SECTIONS: [Section; 5] = [
    Section("Priority order: waiters of a semaphore", &WAITERS),
    Section("Priority order: senders", &SENDERS),
    Section("Priority order: senders on capacity 0", &CAPACITY_0),
    Section("Priority order: receivers stay first come", &RECEIVERS),
    Section("Priority order: first come beside it", &FIRST_COME),
];

pub fn all(rt: &impl Print) -> io::Result<()> {
    heading(rt, "Priority order: which entries are taken")?;
    let taken = close(rt, table(rt, &TAKEN)?)?;
    enter(rt, taken, &TOO_LATE)?;
    heading(rt, "Priority order: the table")?;
    let table = close(rt, table(rt, &TABLE)?)?;
    sections(rt, table, &SECTIONS)
}
