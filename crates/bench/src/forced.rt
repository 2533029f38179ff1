// Forced send (document 02, T-05): each branch, and what is checked before it.
ghost use Rattle.kernel.specs.Valid.{Valid};

use crate::calls::Call::{FsndDtq, PrcvDtq, PsndDtq, RcvDtq, SacDtq, SndDtq};
use crate::calls::{Call, Section, play, sections};
use crate::entries::Entry::{Queue, Task};
use crate::entries::{Entry, close, table};
use crate::say::heading;
use access::domain::NO_DOMAIN;
use kernel::state::State;
use std::io;

// Queue 1 has room for two words: the third drops the first.
const ROOM_AND_FULL: [Call; 9] = [
    FsndDtq(1, 1, 700),
    FsndDtq(1, 1, 701),
    FsndDtq(1, 1, 702),
    PrcvDtq(4, 1),
    FsndDtq(3, 1, 703),
    FsndDtq(3, 1, 704),
    PrcvDtq(4, 1),
    PrcvDtq(4, 1),
    PrcvDtq(4, 1),
];

// Receivers are served first come, and nothing is buffered before all are.
const WAITING_RECEIVERS: [Call; 6] = [
    RcvDtq(4, 1),
    RcvDtq(3, 1),
    FsndDtq(1, 1, 700),
    FsndDtq(1, 1, 701),
    FsndDtq(1, 1, 702),
    PrcvDtq(4, 1),
];

// Task 4 stays, and its word comes behind the one that passed it.
const SENDERS_PASSED: [Call; 8] = [
    PsndDtq(1, 1, 700),
    PsndDtq(1, 1, 701),
    SndDtq(4, 1, 702),
    FsndDtq(1, 1, 703),
    PrcvDtq(1, 1),
    PrcvDtq(1, 1),
    PrcvDtq(1, 1),
    PrcvDtq(1, 1),
];

// Queue 2, with nobody, with a waiting receiver and with a waiting sender; both stay.
const CAPACITY_0: [Call; 7] = [
    FsndDtq(1, 2, 5),
    RcvDtq(2, 2),
    FsndDtq(1, 2, 5),
    PsndDtq(1, 2, 6),
    SndDtq(2, 2, 7),
    FsndDtq(1, 2, 8),
    PrcvDtq(1, 2),
];

// Each check comes before the next; normal operation 1 judges, and before the capacity.
const CHECKS: [Call; 11] = [
    FsndDtq(5, 17, 9),
    FsndDtq(2, 17, 9),
    FsndDtq(2, 0, 9),
    FsndDtq(2, 3, 9),
    FsndDtq(2, 1, 9),
    SacDtq(3, 2, [2, 1, 0, 3]),
    FsndDtq(1, 2, 9),
    FsndDtq(2, 2, 9),
    FsndDtq(3, 2, 9),
    RcvDtq(1, 2),
    FsndDtq(1, 1, 9),
];

const SECTIONS: [Section; 5] = [
    Section(
        "Forced send: with room, and into a full buffer",
        &ROOM_AND_FULL,
    ),
    Section("Forced send: with waiting receivers", &WAITING_RECEIVERS),
    Section("Forced send: waiting senders are passed", &SENDERS_PASSED),
    Section("Forced send: on capacity 0", &CAPACITY_0),
    Section("Forced send: what is checked before", &CHECKS),
];

// One word has room: each forced send drops the one before. Domain 1 may send and domain 2 may receive.
const CAPACITY_1: [Entry; 3] = [
    Task(1, 1),
    Task(2, 1),
    Queue(NO_DOMAIN, 0, 1, Some([1, 2, 0, 3])),
];

const DROPPING: [Call; 6] = [
    FsndDtq(1, 1, 11),
    FsndDtq(1, 1, 12),
    FsndDtq(2, 1, 13),
    FsndDtq(1, 1, 14),
    PrcvDtq(2, 1),
    PrcvDtq(2, 1),
];

fn capacity_1(rt: &impl Print) -> io::Result<()> {
    heading(rt, "Forced send: on capacity 1")?;
    let open = play(rt, table(rt, &CAPACITY_1)?, &[FsndDtq(1, 1, 10)])?;
    play(rt, close(rt, open)?, &DROPPING)?;
    Ok(())
}

pub fn all(rt: &impl Print, table: State) -> io::Result<()>
    requires { Valid table }
{
    sections(rt, table, &SECTIONS)?;
    capacity_1(rt)
}
