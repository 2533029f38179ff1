// The search for the region that holds an address.
ghost use Rattle.std.specs.Prelude.{◌≡◌, cond, ◌≤◌, ◌<◌, leb, length, get_or};
ghost use Rattle.regions.specs.Search.{InOrder, covered_by, lookup};

use itron::limit::MAX_REGIONS;

// A round of the search looks at one region at most. All but the last halve what is left, the last looks at the one region left.
const ROUNDS: u32 = 7;

// Whether an area holds an address. No sum is made, since an end may be 2^32.
pub(crate) fn covers(start: u32, size: u32, address: u32) -> bool
    ensures { result ≡ covered_by start size address }
{
    if address < start {
        return false;
    }
    address - start < size
}

// Where the half that may hold an address begins: at the region in the middle if that starts at or below the address, else at the first.
pub(crate) fn half_from<'a>(bases: &'a [u32], first: usize, middle: usize, address: u32) -> usize
    requires { middle < length bases.now }
    ensures { result ≡ cond (leb (get_or bases.now middle 0) address) middle first }
{
    if bases[middle] <= address {
        return middle;
    }
    first
}

// The index of the first of `count` regions that holds an address. They are in order, so no other can than the last that starts at or below it.
// Before a round of the loop twice `half` regions are left, or all where those are fewer; which it is depends on the count alone.
pub fn find<'a>(bases: &'a [u32], sizes: &'a [u32], count: usize, address: u32) -> Option<usize>
    requires { (count ≤ length bases.now) × (count ≤ length sizes.now) × InOrder bases.now sizes.now count }
    ensures { result ≡ lookup bases.now sizes.now address 0 count }
{
    if count == 0 {
        return None;
    }
    let mut first: usize = 0;
    let mut half = MAX_REGIONS / 2;
    for _ in 1..ROUNDS {
        if 2 * half <= count {
            first = half_from(bases, first, first + half, address);
        } else if half < count {
            first = half_from(bases, first, count - half, address);
        }
        half /= 2;
    }
    if covers(bases[first], sizes[first], address) {
        return Some(first);
    }
    None
}
