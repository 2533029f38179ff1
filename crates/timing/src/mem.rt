// The memory verdict, and the bytes that are handed out by it.
use crate::table::all_regions;
use images::pair::Bases;
use itron::code::E_OK;

// Each of these domains asks for an area of a size from the address at its place, in so many rounds; the number of verdicts E_OK.
#[unsafe(no_mangle)]
pub extern "C" fn timing_verdict<'a>(
    rounds: u32,
    domains: &'a [i32],
    bases: &'a [u32],
    size: u32,
    wishes: u32,
) -> u32 {
    let s = all_regions();
    let mut good: u32 = 0;
    if domains.len() < bases.len() {
        return good;
    }
    for _ in 0..rounds {
        for (domain, base) in domains.iter().zip(bases) {
            if s.prb_mem(*domain, *base, size, wishes) == E_OK {
                good = good.wrapping_add(1);
            }
        }
    }
    good
}

// Parts that are timed are shorter.
const LONG: usize = 65_536;

// How many bytes a part has, and its first; 0 of an empty one.
fn told(part: &[u8]) -> u32 {
    match part {
        [] => 0,
        [first, ..] => (part.len() % LONG) as u32 + u32::from(*first),
    }
}

// Each of these domains reads an area of a size from the address at its place, in so many rounds, out of two images; what the parts
// tell is summed up.
#[unsafe(no_mangle)]
pub extern "C" fn timing_hand_out<'a>(
    rounds: u32,
    domains: &'a [i32],
    starts: &'a [u32],
    size: u32,
    flash_base: u32,
    ram_base: u32,
    flash: &'a [u8],
    ram: &'a [u8],
) -> u32 {
    let s = all_regions();
    let bases = Bases {
        flash: flash_base,
        ram: ram_base,
    };
    let mut sum: u32 = 0;
    if domains.len() < starts.len() {
        return sum;
    }
    for _ in 0..rounds {
        for (domain, start) in domains.iter().zip(starts) {
            let part = s.get_mem(*domain, *start, size, bases, flash, ram);
            sum = sum.wrapping_add(told(part));
        }
    }
    sum
}
