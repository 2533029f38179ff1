// Regions that touch and are equal count as one for the verdict (document 02, T-09).
ghost use Rattle.std.specs.Prelude.{◌≡◌, drop};
ghost use Rattle.model.specs.Regions.{touches, is_equal, in_chain};
ghost use Rattle.regions.specs.View.{regions_of, shown_as};
ghost use Rattle.regions.specs.Held.{Indexed};

use crate::state::{RegionInfo, Regions};

impl RegionInfo {
    // Whether the next region begins where this one ends.
    pub(crate) fn touches(self, next: RegionInfo) -> bool
        ensures { result ≡ touches (shown_as self) (shown_as next) }
    {
        self.end() == next.base as u64
    }

    // Whether another region has the same domain, attribute and vector.
    pub(crate) fn equals(self, other: RegionInfo) -> bool
        ensures { result ≡ is_equal (shown_as self) (shown_as other) }
    {
        self.protection() == other.protection()
    }
}

impl Regions {
    // Whether an area that starts in a region, given with its index, and ends at an address lies within the chain from there on.
    // Most areas end in the region that they start in, and need no walk.
    pub(crate) fn reaches(self, index: usize, first: RegionInfo, end: u64) -> bool
        requires { Indexed self index first }
        ensures { result ≡ in_chain (drop index (regions_of self)) end }
    {
        if end <= first.end() {
            return true;
        }
        self.walk(index, first, end)
    }

    // The same, from region to region; each is read in place, since `at` would take a copy of all regions.
    pub(crate) fn walk(self, index: usize, first: RegionInfo, end: u64) -> bool
        requires { Indexed self index first }
        ensures { result ≡ in_chain (drop index (regions_of self)) end }
    {
        let mut region = first;
        for next in index + 1..self.count {
            if end <= region.end() {
                return true;
            }
            let protection = self.protections[next];
            let follower = RegionInfo::of(self.bases[next], self.sizes[next], protection);
            if !(region.touches(follower) & region.equals(follower)) {
                return false;
            }
            region = follower;
        }
        end <= region.end()
    }
}
