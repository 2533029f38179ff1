// Handing out the bytes of an area out of two lent images (document 02, T-13).
ghost use Rattle.kernel.specs.Valid.{Valid};

use crate::areas::{Area, ask};
use crate::entries::Entry::Region;
use crate::entries::{Entry, close, table};
use crate::names::Code;
use crate::say::heading;
use crate::table::PAGE;
use access::domain::KERNEL_DOMAIN;
use images::pair::Bases;
use kernel::state::State;
use regions::flag::{NO_WRITE, READ};
use std::{fmt, io};

// Byte i of flash is i + 1, that of RAM i + 101; the first of them are lent.
const FLASH: [u8; 32] = [
    1, 2, 3, 4, 5, 6, 7, 8, 9, 10, 11, 12, 13, 14, 15, 16, 17, 18, 19, 20, 21, 22, 23, 24, 25, 26,
    27, 28, 29, 30, 31, 32,
];

const RAM: [u8; 17] = [
    101, 102, 103, 104, 105, 106, 107, 108, 109, 110, 111, 112, 113, 114, 115, 116, 117,
];

// Where an image begins, and how many bytes of it are lent: flash, then RAM.
#[derive(Clone, Copy)]
struct Lent(u32, usize, u32, usize);

impl fmt::Display for Lent {
    fn fmt<W: fmt::Write>(&self, f: &mut fmt::Formatter<W>) -> fmt::Result {
        let Lent(flash_base, flash, ram_base, ram) = *self;
        write!(
            f,
            "lent are flash at 0x{flash_base:x}, length {flash}, and RAM at 0x{ram_base:x}, length {ram}"
        )
    }
}

// A domain that gets an area, by its base and size.
#[derive(Clone, Copy)]
struct Get(i32, u32, u32);

// What is got from images that are lent.
#[derive(Clone, Copy)]
struct Lending(Lent, &'static [Get]);

// The first bytes of an image.
fn head(image: &[u8], count: usize) -> &[u8] {
    image.get(..count).unwrap_or(image)
}

fn get_mem(rt: &impl Print, s: State, lent: Lent, get: Get) -> io::Result<()>
    requires { Valid s }
{
    let Get(domain, base, size) = get;
    let Lent(flash_base, flash, ram_base, ram) = lent;
    let bases = Bases {
        flash: flash_base,
        ram: ram_base,
    };
    let flash = head(&FLASH, flash);
    let ram = head(&RAM, ram);
    let code = s.get_mem_code(domain, base, size, bases, flash, ram);
    print!(rt;
        "  domain {domain} gets what is at 0x{base:x}, size {size}: {}",
        Code(code)
    )?;
    let part = s.get_mem(domain, base, size, bases, flash, ram);
    if !part.is_empty() {
        rt.print(", bytes")?;
    }
    for byte in part {
        print!(rt; " {byte}")?;
    }
    rt.println("")
}

fn get_all(rt: &impl Print, table: State, lent: Lent, gets: &[Get]) -> io::Result<()>
    requires { Valid table }
{
    for get in gets {
        get_mem(rt, table, lent, *get)?;
    }
    Ok(())
}

fn lend(rt: &impl Print, table: State, lendings: &[Lending]) -> io::Result<()>
    requires { Valid table }
{
    for Lending(lent, gets) in lendings {
        println!(rt; "  {lent}")?;
        get_all(rt, table, *lent, gets)?;
    }
    Ok(())
}

// On an open table bad images are E_CTX too.
const OPEN: [Lending; 2] = [
    Lending(Lent(0x1ff0, 16, 0x2000, 16), &[Get(2, 0x1ff0, 1)]),
    Lending(Lent(0x1ff0, 17, 0x2000, 16), &[Get(2, 0x1ff0, 1)]),
];

const TOUCH: Lent = Lent(0x1ff0, 16, 0x2000, 16);

const TOUCHING: [Get; 9] = [
    Get(2, 0x1ff4, 4),
    Get(2, 0x2004, 4),
    Get(2, 0x1ff0, 1),
    Get(2, 0x1fff, 1),
    Get(2, 0x2000, 1),
    Get(2, 0x200f, 1),
    Get(2, 0x1ff0, 16),
    Get(2, 0x2000, 16),
    Get(KERNEL_DOMAIN, 0x1ff0, 2),
];

// The regions are one chain, so the verdict allows what no image has whole.
const NOT_WHOLE: [Get; 7] = [
    Get(2, 0x1fff, 2),
    Get(2, 0x1ff0, 32),
    Get(2, 0x1fef, 1),
    Get(2, 0x1fef, 2),
    Get(2, 0x200f, 2),
    Get(2, 0x2010, 1),
    Get(2, 0x1000, 0x2000),
];

const REFUSED: [Lending; 1] = [Lending(
    Lent(0x1ff0, 16, 0x3000, 16),
    &[
        Get(3, 0x1ff0, 1),
        Get(0, 0x1ff0, 0),
        Get(2, 0x1ff0, 0),
        Get(2, 0x4000, 1),
        Get(2, 0x2fff, 2),
        Get(2, 0x3000, 1),
        Get(1, 0x3000, 2),
    ],
)];

const CHAINED: [Lending; 1] = [Lending(
    Lent(0x1ff0, 32, 0x3000, 16),
    &[Get(2, 0x1ffe, 4), Get(2, 0x1ff0, 32), Get(2, 0x1ff0, 33)],
)];

// Whatever is asked, and whoever asks.
const OVERLAPPING: [Lending; 2] = [
    Lending(
        Lent(0x1ff0, 17, 0x2000, 16),
        &[
            Get(2, 0x1ff0, 1),
            Get(3, 0x1ff0, 1),
            Get(2, 0x3000, 1),
            Get(2, 0x4000, 1),
        ],
    ),
    Lending(Lent(0x2000, 16, 0x1ff0, 17), &[Get(2, 0x1ff0, 1)]),
];

const INSIDE: [Lending; 3] = [
    Lending(Lent(0x1ff0, 32, 0x1ff8, 8), &[Get(2, 0x1ff0, 1)]),
    Lending(Lent(0x2008, 1, 0x2000, 16), &[Get(2, 0x2000, 1)]),
    Lending(Lent(0x2000, 1, 0x2000, 1), &[Get(2, 0x2000, 1)]),
];

// RAM may lie below flash.
const EXCHANGED: [Lending; 1] = [Lending(
    Lent(0x2000, 16, 0x1ff0, 16),
    &[Get(2, 0x1ff0, 2), Get(2, 0x2000, 2), Get(2, 0x1fff, 2)],
)];

const EMPTY: [Lending; 4] = [
    Lending(Lent(0x1ff0, 0, 0x1ff0, 0), &[Get(2, 0x1ff0, 1)]),
    Lending(Lent(0x1ff0, 16, 0x1ff8, 0), &[Get(2, 0x1ff7, 2)]),
    Lending(Lent(0x2008, 0, 0x2000, 16), &[Get(2, 0x2007, 2)]),
    Lending(
        Lent(0xffff_ffff, 0, 0xffff_fff0, 16),
        &[Get(2, 0xffff_ffff, 1)],
    ),
];

const TOP: [Lending; 3] = [
    Lending(
        Lent(0x1ff0, 16, 0xffff_fff0, 16),
        &[
            Get(2, 0xffff_fff0, 16),
            Get(2, 0xffff_ffff, 1),
            Get(2, 0xffff_ffff, 2),
        ],
    ),
    Lending(Lent(0x1ff0, 16, 0xffff_fff0, 17), &[Get(2, 0xffff_fff0, 1)]),
    Lending(Lent(0xffff_fff0, 17, 0x2000, 16), &[Get(2, 0x2000, 1)]),
];

const SECTIONS: [(&str, &[Lending]); 7] = [
    ("Handing out the bytes: refused by the verdict", &REFUSED),
    (
        "Handing out the bytes: along a chain, within one image",
        &CHAINED,
    ),
    (
        "Handing out the bytes: images that overlap by one byte",
        &OVERLAPPING,
    ),
    ("Handing out the bytes: one image inside the other", &INSIDE),
    ("Handing out the bytes: RAM below flash", &EXCHANGED),
    ("Handing out the bytes: empty images", &EMPTY),
    ("Handing out the bytes: up to the top of memory", &TOP),
];

// Two equal regions that touch, one of domain 1 behind them, and one up to the top of memory.
const TABLE: [Entry; 4] = [
    Region(KERNEL_DOMAIN, NO_WRITE, 0x1000, PAGE, Some([0, 3, 0, 3])),
    Region(KERNEL_DOMAIN, NO_WRITE, 0x2000, PAGE, Some([0, 3, 0, 3])),
    Region(1, 0, 0x3000, PAGE, Some([1, 1, 0, 1])),
    Region(1, 0, 0xffff_f000, PAGE, Some([1, 3, 0, 1])),
];

pub fn all(rt: &impl Print) -> io::Result<()> {
    heading(rt, "Handing out the bytes")?;
    let before = table(rt, &TABLE)?;
    lend(rt, before, &OPEN)?;
    let table = close(rt, before)?;
    heading(rt, "Handing out the bytes: images that touch")?;
    println!(rt; "  {TOUCH}")?;
    get_all(rt, table, TOUCH, &TOUCHING)?;
    heading(
        rt,
        "Handing out the bytes: allowed, and not wholly in one image",
    )?;
    println!(rt; "  {TOUCH}")?;
    ask(rt, table, &[Area(2, 0x1fff, 2, READ)])?;
    get_all(rt, table, TOUCH, &NOT_WHOLE)?;
    for (title, lendings) in SECTIONS {
        heading(rt, title)?;
        lend(rt, table, lendings)?;
    }
    Ok(())
}
