// The search for the region that holds an address, for a host that lends the arrays. It is exported alone, so that it can be timed alone.
#![tactic(auto)]

ghost use Rattle.std.specs.Prelude.{◌≡◌, ◌≤◌, length};
ghost use Rattle.regions.specs.Search.{InOrder, lookup};
ghost use Rattle.finding.specs.Index.{index_of};

use regions::search::find;

// The index of the region that holds an address, the number of regions where there is none. That they are at most 64, in order, each with a size, is the host's promise.
#[unsafe(no_mangle)]
pub extern "C" fn finding_find<'a>(bases: &'a [u32], sizes: &'a [u32], address: u32) -> usize
    requires { (length bases.now ≤ length sizes.now) × InOrder bases.now sizes.now (length bases.now) }
    ensures { result ≡ index_of (length bases.now) (lookup bases.now sizes.now address 0 (length bases.now)) }
{
    let count = bases.len();
    find(bases, sizes, count, address).unwrap_or(count)
}
