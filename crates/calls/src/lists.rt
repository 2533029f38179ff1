// The lists: runs S and Q of document 01, what refers tell, what is no call, numbers of 2^16 and more, forced sends
// (request T-05), extended service calls (request T-03), answers without room.
use crate::call::{Call, NONE};
use crate::run::{ANSWERS, Run};
use batch::asked::{
    CAL_SVC, FSND_DTQ, POL_SEM, PRCV_DTQ, PSND_DTQ, RCV_DTQ, REF_DTQ, REF_SEM, RET_SVC, SAC_DTQ,
    SAC_SEM, SIG_SEM, SND_DTQ, WAI_SEM,
};

const RUN_S: [Call; 12] = [
    Call(POL_SEM, 1, 1, 0, NONE),
    Call(POL_SEM, 1, 1, 0, NONE),
    Call(WAI_SEM, 1, 1, 0, NONE),
    Call(SIG_SEM, 1, 1, 0, NONE),
    Call(SIG_SEM, 2, 1, 0, NONE),
    Call(SAC_SEM, 3, 1, 0, [2, 2, 0, 3]),
    Call(SIG_SEM, 2, 1, 0, NONE),
    Call(POL_SEM, 1, 1, 0, NONE),
    Call(SIG_SEM, 2, 1, 0, NONE),
    Call(SIG_SEM, 2, 1, 0, NONE),
    Call(SIG_SEM, 2, 1, 0, NONE),
    Call(REF_SEM, 1, 1, 0, NONE),
];

const RUN_Q: [Call; 9] = [
    Call(RCV_DTQ, 2, 1, 0, NONE),
    Call(PSND_DTQ, 1, 1, 700, NONE),
    Call(PSND_DTQ, 1, 1, 701, NONE),
    Call(PSND_DTQ, 1, 1, 702, NONE),
    Call(SND_DTQ, 1, 1, 702, NONE),
    Call(PRCV_DTQ, 4, 1, 0, NONE),
    Call(PSND_DTQ, 2, 2, 5, NONE),
    Call(SND_DTQ, 2, 2, 5, NONE),
    Call(RCV_DTQ, 1, 2, 0, NONE),
];

// Every word of an answer is told: a released receiver with its word, waiters of each kind, four different patterns.
const REFERS: [Call; 12] = [
    Call(SAC_DTQ, 3, 1, 0, [1, 3, 2, 7]),
    Call(RCV_DTQ, 4, 1, 0, NONE),
    Call(REF_DTQ, 1, 1, 0, NONE),
    Call(PSND_DTQ, 1, 1, 800, NONE),
    Call(PSND_DTQ, 1, 1, 801, NONE),
    Call(PSND_DTQ, 1, 1, 802, NONE),
    Call(SND_DTQ, 1, 1, 803, NONE),
    Call(REF_DTQ, 2, 1, 0, NONE),
    Call(WAI_SEM, 4, 1, 0, NONE),
    Call(WAI_SEM, 4, 1, 0, NONE),
    Call(REF_SEM, 2, 1, 0, NONE),
    Call(SAC_DTQ, 2, 1, 0, [0, 0, 0, 0]),
];

// The calls between them find the table as the one before left it.
const NO_CALLS: [Call; 8] = [
    Call(0, 1, 1, 0, NONE),
    Call(POL_SEM, 1, 1, 0, NONE),
    Call(15, 1, 1, 0, NONE),
    Call(POL_SEM, 1, 1, 0, NONE),
    Call(u32::MAX, 1, 1, 0, NONE),
    Call(POL_SEM, 0, 1, 0, NONE),
    Call(POL_SEM, u32::MAX, 1, 0, NONE),
    Call(POL_SEM, 3, 0x8000_0000, 0, NONE),
];

// Words of 2^16 and more come back as they were sent: from a buffer, with a released receiver, from a waiting sender.
const LARGE_WORDS: [Call; 16] = [
    Call(PSND_DTQ, 1, 1, 65_536, NONE),
    Call(PSND_DTQ, 1, 1, 65_537, NONE),
    Call(PRCV_DTQ, 4, 1, 0, NONE),
    Call(PRCV_DTQ, 4, 1, 0, NONE),
    Call(RCV_DTQ, 4, 1, 0, NONE),
    Call(PSND_DTQ, 1, 1, 0x1234_5678, NONE),
    Call(SND_DTQ, 2, 2, u32::MAX, NONE),
    Call(RCV_DTQ, 1, 2, 0, NONE),
    Call(RCV_DTQ, 2, 2, 0, NONE),
    Call(PSND_DTQ, 1, 2, 0xFFFF_0000, NONE),
    Call(PSND_DTQ, 1, 1, 0x8000_0000, NONE),
    Call(PSND_DTQ, 1, 1, u32::MAX, NONE),
    Call(SND_DTQ, 1, 1, 65_536, NONE),
    Call(PRCV_DTQ, 4, 1, 0, NONE),
    Call(PRCV_DTQ, 4, 1, 0, NONE),
    Call(PRCV_DTQ, 4, 1, 0, NONE),
];

// Functions, callers and objects of 2^16 and more are none, though their low 16 bits are; the last two calls find nothing changed.
const LARGE_NUMBERS: [Call; 16] = [
    Call(POL_SEM, 65_537, 1, 0, NONE),
    Call(POL_SEM, u32::MAX, 1, 0, NONE),
    Call(POL_SEM, 1, 65_537, 0, NONE),
    Call(POL_SEM, 1, u32::MAX, 0, NONE),
    Call(PSND_DTQ, 1, 65_537, 700, NONE),
    Call(PSND_DTQ, 1, 65_538, 700, NONE),
    Call(PRCV_DTQ, 3, u32::MAX, 0, NONE),
    Call(65_537, 1, 1, 0, NONE),
    Call(65_542, 1, 1, 700, NONE),
    Call(0x0001_0004, 1, 1, 0, NONE),
    Call(0x8000_0002, 1, 1, 0, NONE),
    Call(POL_SEM, 0x8000_0001, 1, 0, NONE),
    Call(SAC_SEM, 65_539, 1, 0, [3, 3, 3, 3]),
    Call(SIG_SEM, 1, 0x7FFF_0001, 0, NONE),
    Call(REF_SEM, 3, 1, 0, NONE),
    Call(REF_DTQ, 3, 1, 0, NONE),
];

// Patterns of 2^16 and more are kept whole; domains 1 and 2 are judged by their bits alone.
const LARGE_PATTERNS: [Call; 16] = [
    Call(
        SAC_SEM,
        3,
        1,
        0,
        [0x1234_0001, 0xFFFF_0001, 0x8000_0000, 0x0001_0003],
    ),
    Call(REF_SEM, 1, 1, 0, NONE),
    Call(POL_SEM, 2, 1, 0, NONE),
    Call(POL_SEM, 1, 1, 0, NONE),
    Call(SIG_SEM, 1, 1, 0, NONE),
    Call(SAC_DTQ, 3, 2, 0, [65_536, 65_538, 0xFFFF_FFFC, u32::MAX]),
    Call(REF_DTQ, 2, 2, 0, NONE),
    Call(PSND_DTQ, 1, 2, 7, NONE),
    Call(PSND_DTQ, 2, 2, 7, NONE),
    Call(RCV_DTQ, 1, 2, 0, NONE),
    Call(RCV_DTQ, 2, 2, 0, NONE),
    Call(PSND_DTQ, 3, 2, 65_539, NONE),
    Call(SAC_DTQ, 2, 2, 0, [3, 3, 3, 3]),
    Call(
        SAC_DTQ,
        3,
        1,
        0,
        [0xFFFE_FFFF, 0x7FFF_FFFF, 65_536, 0xFFFF_0002],
    ),
    Call(REF_DTQ, 1, 1, 0, NONE),
    Call(REF_DTQ, 2, 1, 0, NONE),
];

// Into room, into a full buffer, to a waiting receiver; denied, and on a queue of capacity 0.
const FORCED_SENDS: [Call; 12] = [
    Call(FSND_DTQ, 1, 1, 900, NONE),
    Call(FSND_DTQ, 1, 1, 901, NONE),
    Call(FSND_DTQ, 1, 1, 902, NONE),
    Call(PRCV_DTQ, 4, 1, 0, NONE),
    Call(PRCV_DTQ, 4, 1, 0, NONE),
    Call(RCV_DTQ, 4, 1, 0, NONE),
    Call(FSND_DTQ, 3, 1, 903, NONE),
    Call(FSND_DTQ, 2, 1, 904, NONE),
    Call(FSND_DTQ, 1, 2, 905, NONE),
    Call(RCV_DTQ, 4, 2, 0, NONE),
    Call(FSND_DTQ, 1, 2, 906, NONE),
    Call(PSND_DTQ, 1, 2, 907, NONE),
];

// A denied task calls inside an extended service call and outside; object, word and vector of the calls on its level say nothing.
const SERVICE_CALLS: [Call; 16] = [
    Call(RET_SVC, 2, 0, 0, NONE),
    Call(PSND_DTQ, 2, 1, 910, NONE),
    Call(CAL_SVC, 2, u32::MAX, 65_536, [1, 2, 3, u32::MAX]),
    Call(PSND_DTQ, 2, 1, 911, NONE),
    Call(REF_DTQ, 2, 1, 0, NONE),
    Call(RCV_DTQ, 2, 2, 0, NONE),
    Call(CAL_SVC, 2, 0, 0, NONE),
    Call(RET_SVC, 2, 0, 0, NONE),
    Call(PSND_DTQ, 1, 2, 912, NONE),
    Call(RET_SVC, 2, u32::MAX, 7, [9, 9, 9, 9]),
    Call(PSND_DTQ, 2, 1, 913, NONE),
    Call(RET_SVC, 2, 0, 0, NONE),
    Call(CAL_SVC, u32::MAX, 1, 0, NONE),
    Call(CAL_SVC, 5, 1, 0, NONE),
    Call(PRCV_DTQ, 4, 1, 0, NONE),
    Call(PRCV_DTQ, 4, 1, 0, NONE),
];

// Where an answer has no room, its call is not made.
const SHORT_ANSWERS: [Call; 2] = [Call(POL_SEM, 1, 1, 0, NONE), Call(POL_SEM, 1, 1, 0, NONE)];

// Words of 0 behind the last whole call.
const NO_CALL: usize = 5;

// Room for one answer and some words more.
const ONE_ANSWER_AND_MORE: usize = 16;

pub const RUNS: [Run; 12] = [
    Run("S", &RUN_S, 0, ANSWERS),
    Run("Q", &RUN_Q, 0, ANSWERS),
    Run("Refers", &REFERS, 0, ANSWERS),
    Run("No calls", &NO_CALLS, NO_CALL, ANSWERS),
    Run("Large words", &LARGE_WORDS, 0, ANSWERS),
    Run("Large numbers", &LARGE_NUMBERS, 0, ANSWERS),
    Run("Large patterns", &LARGE_PATTERNS, 0, ANSWERS),
    Run("Forced sends", &FORCED_SENDS, 0, ANSWERS),
    Run("Extended service calls", &SERVICE_CALLS, 0, ANSWERS),
    Run(
        "Answers without room",
        &SHORT_ANSWERS,
        0,
        ONE_ANSWER_AND_MORE,
    ),
    Run("No list", &[], 0, ANSWERS),
    Run("No room", &SHORT_ANSWERS, 0, 0),
];
