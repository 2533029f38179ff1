// The memory verdict on a closed table for a known domain (document 01, "The memory verdict").
ghost use Rattle.std.specs.Prelude.{◌≡◌, drop};
ghost use Rattle.model.specs.Checks.{passed};
ghost use Rattle.model.specs.Regions.{may_write, may_read, may_execute, grants, allows, wishes_ok, area_ok, judge_in, judge};
ghost use Rattle.regions.specs.View.{regions_of, shown_as};
ghost use Rattle.regions.specs.Held.{Held, Indexed};

use crate::entry::is_area;
use crate::flag::{EXECUTABLE, EXECUTE, NO_WRITE, READ, WRITE, has};
use crate::search::find;
use crate::state::{RegionInfo, Regions};
use access::pattern::admits;
use itron::error::Error;

// Whether there is a wish and no unknown one.
pub(crate) fn is_wish(wishes: u32) -> bool
    ensures { result ≡ wishes_ok wishes }
{
    (1 <= wishes) & (wishes <= WRITE + READ + EXECUTE)
}

// Whether there is something to judge: an area and a wish.
pub(crate) fn is_request(base: u32, size: u32, wishes: u32) -> bool
    ensures { result ≡ area_ok base size wishes }
{
    is_wish(wishes) & is_area(base, size)
}

// A wish that is not there is granted.
pub(crate) fn granted(wanted: bool, may: bool) -> bool
    ensures { result ≡ grants wanted may }
{
    if wanted {
        return may;
    }
    true
}

impl RegionInfo {
    pub(crate) fn may_write(self, domain: i32) -> bool
        ensures { result ≡ may_write (shown_as self) domain }
    {
        !has(self.attribute, NO_WRITE) & admits(self.vector.normal1, domain)
    }

    pub(crate) fn may_read(self, domain: i32) -> bool
        ensures { result ≡ may_read (shown_as self) domain }
    {
        admits(self.vector.normal2, domain)
    }

    pub(crate) fn may_execute(self, domain: i32) -> bool
        ensures { result ≡ may_execute (shown_as self) domain }
    {
        has(self.attribute, EXECUTABLE) & admits(self.vector.normal2, domain)
    }

    // Whether every wish is granted.
    pub(crate) fn allows(self, domain: i32, wishes: u32) -> bool
        ensures { result ≡ allows (shown_as self) domain wishes }
    {
        let write = granted(has(wishes, WRITE), self.may_write(domain));
        let read = granted(has(wishes, READ), self.may_read(domain));
        let execute = granted(has(wishes, EXECUTE), self.may_execute(domain));
        write & read & execute
    }
}

impl Regions {
    // The verdict on an area that starts in a region, given with its index.
    pub(crate) fn judge_at(
        self,
        index: usize,
        region: RegionInfo,
        domain: i32,
        base: u32,
        size: u32,
        wishes: u32,
    ) -> Result<(), Error>
        requires { Indexed self index region }
        ensures { result ≡ passed (judge_in (drop index (regions_of self)) domain base size wishes) }
    {
        let inside = self.reaches(index, region, base as u64 + size as u64);
        let allowed = region.allows(domain, wishes);
        if !inside {
            return Err(Error::Obj);
        }
        if !allowed {
            return Err(Error::Macv);
        }
        Ok(())
    }

    // The verdict, whatever is asked; the region is read in place, since `at` would take a copy of all regions.
    pub fn judge(self, domain: i32, base: u32, size: u32, wishes: u32) -> Result<(), Error>
        requires { Held self }
        ensures { result ≡ passed (judge (regions_of self) domain base size wishes) }
    {
        if !is_request(base, size, wishes) {
            return Err(Error::Par);
        }
        let count = self.count;
        let index = find(&self.bases, &self.sizes, count, base).ok_or(Error::Noexs)?;
        let protection = self.protections[index];
        let region = RegionInfo::of(self.bases[index], self.sizes[index], protection);
        self.judge_at(index, region, domain, base, size, wishes)
    }
}
