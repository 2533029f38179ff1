// Regions that touch and are equal count as one for the verdict (document 02, T-09).
use crate::areas::{Area, ask};
use crate::entries::Entry::Region;
use crate::entries::{Entry, close, table};
use crate::say::heading;
use crate::table::PAGE;
use access::domain::{KERNEL_DOMAIN, NO_DOMAIN};
use regions::flag::{EXECUTABLE, NO_WRITE, READ, WRITE};
use std::io;

// Domain 2 may read a page of domain 1 and not write it; pages that are entered so are equal.
const SHOWN: Option<[u32; 4]> = Some([1, 3, 0, 1]);

// Two equal neighbours, a gap of one unit, three equal neighbours, and two more up to the top of memory.
const PAGES: [Entry; 7] = [
    Region(1, 0, 0x1000, PAGE, SHOWN),
    Region(1, 0, 0x2000, PAGE, SHOWN),
    Region(1, 0, 0x4000, PAGE, SHOWN),
    Region(1, 0, 0x5000, PAGE, SHOWN),
    Region(1, 0, 0x6000, PAGE, SHOWN),
    Region(1, 0, 0xffff_e000, PAGE, SHOWN),
    Region(1, 0, 0xffff_f000, PAGE, SHOWN),
];

const TWO: [Area; 6] = [
    Area(2, 0x1fff, 2, READ),
    Area(2, 0x1000, 0x2000, READ),
    Area(2, 0x1000, 0x2001, READ),
    Area(2, 0x2000, 0x1001, READ),
    Area(2, 0x1fff, 2, WRITE),
    Area(1, 0x1fff, 2, WRITE),
];

const GAP: [Area; 5] = [
    Area(2, 0x3000, 1, READ),
    Area(2, 0x3fff, 2, READ),
    Area(2, 0x2fff, 2, READ),
    Area(2, 0x2fff, 0x1002, READ),
    Area(2, 0x1000, 0x6000, WRITE),
];

const THREE: [Area; 4] = [
    Area(2, 0x4000, 0x3000, READ),
    Area(2, 0x4fff, 0x1002, READ),
    Area(2, 0x5000, 0x2000, READ),
    Area(2, 0x4000, 0x3001, READ),
];

const TOP: [Area; 3] = [
    Area(2, 0xffff_e000, 0x2000, READ),
    Area(2, 0xffff_efff, 0x1001, READ),
    Area(2, 0xffff_efff, 0x1002, READ),
];

const SECTIONS: [(&str, &[Area]); 4] = [
    ("Touching regions: two", &TWO),
    ("Touching regions: a gap of one unit", &GAP),
    ("Touching regions: three", &THREE),
    ("Touching regions: up to the top of memory", &TOP),
];

const ATTRIBUTE: u32 = NO_WRITE + EXECUTABLE;

// Each page differs from the one before in one thing: domain, ATTRIBUTE, each pattern, used or not; the last in nothing.
const UNLIKE: [Entry; 8] = [
    Region(KERNEL_DOMAIN, NO_WRITE, 0x1000, PAGE, Some([0, 3, 0, 3])),
    Region(NO_DOMAIN, NO_WRITE, 0x2000, PAGE, Some([0, 3, 0, 3])),
    Region(NO_DOMAIN, ATTRIBUTE, 0x3000, PAGE, Some([0, 3, 0, 3])),
    Region(NO_DOMAIN, ATTRIBUTE, 0x4000, PAGE, Some([1, 3, 0, 3])),
    Region(NO_DOMAIN, ATTRIBUTE, 0x5000, PAGE, Some([1, 1, 0, 3])),
    Region(NO_DOMAIN, ATTRIBUTE, 0x6000, PAGE, Some([1, 1, 1, 3])),
    Region(NO_DOMAIN, ATTRIBUTE, 0x7000, PAGE, Some([1, 1, 1, 1])),
    Region(NO_DOMAIN, ATTRIBUTE, 0x8000, PAGE, Some([1, 1, 1, 1])),
];

const ACROSS: [Area; 7] = [
    Area(1, 0x1fff, 2, READ),
    Area(1, 0x2fff, 2, READ),
    Area(1, 0x3fff, 2, READ),
    Area(1, 0x4fff, 2, READ),
    Area(1, 0x5fff, 2, READ),
    Area(1, 0x6fff, 2, READ),
    Area(1, 0x7fff, 2, READ),
];

pub fn all(rt: &impl Print) -> io::Result<()> {
    heading(rt, "Touching regions")?;
    let pages = close(rt, table(rt, &PAGES)?)?;
    for (title, areas) in SECTIONS {
        heading(rt, title)?;
        ask(rt, pages, areas)?;
    }
    heading(rt, "Touching regions that differ in one thing")?;
    let unlike = close(rt, table(rt, &UNLIKE)?)?;
    ask(rt, unlike, &ACROSS)
}
