// The runs of document 01 on the closed table; the starred steps are here too, so that each run can be followed.
use crate::areas::Area;
use crate::calls::Call::{
    PolSem, PrcvDtq, PsndDtq, RcvDtq, RefSem, SacSem, SigSem, SndDtq, WaiSem,
};
use crate::calls::{Call, Section};
use access::domain::KERNEL_DOMAIN;
use regions::flag::{READ, WRITE};

const S: [Call; 13] = [
    PolSem(1, 1),
    PolSem(1, 1),
    WaiSem(1, 1),
    SigSem(1, 1),
    SigSem(2, 1),
    SacSem(3, 1, [2, 2, 0, 3]),
    SigSem(2, 1),
    RefSem(1, 1),
    PolSem(1, 1),
    SigSem(2, 1),
    SigSem(2, 1),
    SigSem(2, 1),
    RefSem(1, 1),
];

const Q: [Call; 12] = [
    RcvDtq(2, 1),
    PsndDtq(1, 1, 700),
    PsndDtq(1, 1, 701),
    PsndDtq(1, 1, 702),
    SndDtq(1, 1, 702),
    PrcvDtq(4, 1),
    PsndDtq(2, 2, 5),
    SndDtq(2, 2, 5),
    RcvDtq(1, 2),
    // What is left in queue 1 comes out in order.
    PrcvDtq(4, 1),
    PrcvDtq(4, 1),
    PrcvDtq(4, 1),
];

// The numbers of semaphores that no table has, and of those that this one has not; these for the kernel's task 3 as well.
const UNREGISTERED: [Call; 9] = [
    PolSem(1, -1),
    PolSem(1, 0),
    PolSem(1, 65),
    PolSem(1, 2),
    PolSem(1, 32),
    PolSem(1, 33),
    PolSem(3, 2),
    PolSem(3, 33),
    PolSem(3, 64),
];

pub const STARRED: [Section; 2] = [Section("S", &S), Section("Q", &Q)];

pub const NUMBERS: [Section; 1] = [Section("Numbers", &UNREGISTERED)];

pub const REGIONS: [Area; 8] = [
    Area(2, 0x1fff, 1, READ),
    Area(2, 0x1fff, 2, READ),
    Area(2, 0x2000, 1, READ),
    Area(2, 0x3000, 1, READ),
    Area(2, 0x1fff, 0, READ),
    Area(KERNEL_DOMAIN, 0x1000, 1, WRITE),
    Area(2, 0xffff_ffff, 1, READ),
    Area(2, 0xffff_ffff, 2, READ),
];
