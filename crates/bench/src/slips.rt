// The easy slips of document 01, each from the closed table; a kernel that makes the slip answers otherwise.
use crate::calls::Call::{PolSem, RcvDtq, RefSem, SacDtq, SacSem, SigSem, SndDtq, WaiSem};
use crate::calls::{Call, Section};

// Task 3 is the kernel's.
const KERNEL_IS_NO_BIT: [Call; 6] = [
    SacSem(3, 1, [0; 4]),
    PolSem(3, 1),
    SigSem(3, 1),
    RefSem(3, 1),
    SacSem(3, 1, [0; 4]),
    RefSem(1, 1),
];

// Task 1 waits to receive, later to send, and loses its right each time.
const WAITER_KEEPS_ITS_PLACE: [Call; 8] = [
    RcvDtq(1, 1),
    SacDtq(3, 1, [2, 2, 0, 3]),
    SndDtq(2, 1, 9),
    RcvDtq(1, 1),
    SndDtq(1, 2, 6),
    SacDtq(3, 2, [2, 2, 0, 3]),
    RcvDtq(2, 2),
    SndDtq(1, 2, 6),
];

const RELEASE_LEAVES_THE_COUNT: [Call; 5] = [
    PolSem(1, 1),
    WaiSem(4, 1),
    SigSem(1, 1),
    RefSem(1, 1),
    PolSem(1, 1),
];

// Task 2 may not signal semaphore 1 nor send to queue 1.
const UNREGISTERED_BEFORE_DENIED: [Call; 4] = [
    SigSem(2, 2),
    SigSem(2, 1),
    SndDtq(2, 3, 8),
    SndDtq(2, 1, 8),
];

const CAPACITY_ZERO_WAITS: [Call; 2] = [SndDtq(1, 2, 5), RcvDtq(2, 2)];

pub const SECTIONS: [Section; 5] = [
    Section(
        "Slip: an all-zero pattern locks the kernel domain out",
        &KERNEL_IS_NO_BIT,
    ),
    Section(
        "Slip: a waiter's right is judged again when it is served",
        &WAITER_KEEPS_ITS_PLACE,
    ),
    Section(
        "Slip: a signal raises the count and also releases a waiter",
        &RELEASE_LEAVES_THE_COUNT,
    ),
    Section(
        "Slip: E_OACV for a number that isn't registered",
        &UNREGISTERED_BEFORE_DENIED,
    ),
    Section(
        "Slip: a send on a queue of capacity 0 is refused",
        &CAPACITY_ZERO_WAITS,
    ),
];
