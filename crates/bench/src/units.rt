// The protection unit (document 02, T-06): which units are taken, and which regions of a table that has one.
use crate::areas::{Area, ask};
use crate::entries::Entry::{Region, Task};
use crate::entries::{Entry, close, enter, fresh, table};
use crate::say::heading;
use crate::table::PAGE;
use access::domain::KERNEL_DOMAIN;
use regions::flag::{NO_WRITE, READ};
use std::io;

// The first address of the last page.
const TOP: u32 = 0xffff_f000;

// An attribute that no region has.
const UNKNOWN: u32 = 2;

// Numbers of domains and units: powers of two, their neighbours, and what is too large; then good units.
const TRIED: [(i32, u32); 13] = [
    (2, 0),
    (2, 1),
    (2, 2),
    (2, 3),
    (2, 4_095),
    (2, 4_096),
    (2, 65_536),
    (2, 65_537),
    (2, 131_072),
    (2, 4_294_967_295),
    (33, PAGE),
    (-1, PAGE),
    (32, PAGE),
];

// A bad unit gives the table for n = 0 and unit 1, whatever n was.
const AFTER_BAD: [Entry; 2] = [Task(1, 1), Region(KERNEL_DOMAIN, 0, 1, 1, None)];

// Base and size are tested both, after the attribute and before the place; the last page of memory is a region.
const PAGES: [Entry; 9] = [
    Region(KERNEL_DOMAIN, 0, PAGE / 2, PAGE, None),
    Region(KERNEL_DOMAIN, 0, PAGE, PAGE / 2, None),
    Region(KERNEL_DOMAIN, 0, PAGE, PAGE + 1, None),
    Region(KERNEL_DOMAIN, UNKNOWN, PAGE + 1, PAGE, None),
    Region(KERNEL_DOMAIN, 0, PAGE, 2 * PAGE, None),
    Region(KERNEL_DOMAIN, 0, 2 * PAGE, PAGE, None),
    Region(KERNEL_DOMAIN, 0, 2 * PAGE + 1, PAGE, None),
    Region(KERNEL_DOMAIN, NO_WRITE, TOP, PAGE, None),
    Region(KERNEL_DOMAIN, 0, TOP, PAGE, None),
];

// The verdict's area is of any base and size.
const AREAS: [Area; 3] = [
    Area(KERNEL_DOMAIN, PAGE + 1, PAGE, READ),
    Area(KERNEL_DOMAIN, PAGE + 1, 2 * PAGE, READ),
    Area(KERNEL_DOMAIN, 0xffff_ffff, 1, READ),
];

pub fn all(rt: &impl Print) -> io::Result<()> {
    heading(rt, "Units")?;
    for (n, unit) in TRIED {
        fresh(rt, n, unit)?;
    }
    heading(rt, "Units: after a bad one")?;
    enter(rt, fresh(rt, 2, 3)?, &AFTER_BAD)?;
    heading(rt, "Units: regions of pages")?;
    let pages = close(rt, table(rt, &PAGES)?)?;
    ask(rt, pages, &AREAS)
}
