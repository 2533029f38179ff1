// Memory regions: their entry, the memory verdict, the bytes that are handed out by it, and what a dump shows of a region.
ghost use Rattle.std.specs.Prelude.{◌≡◌};
ghost use Rattle.model.specs.Lists.{at};
ghost use Rattle.model.specs.State.{no_region};
ghost use Rattle.model.specs.Answers.{result_of};
ghost use Rattle.model.specs.Checks.{passed};
ghost use Rattle.model.specs.Table.{check_entry, enter, region};
ghost use Rattle.model.specs.Verdict.{verdict};
ghost use Rattle.model.specs.Images.{image, hand_out, handed_bytes};
ghost use Rattle.regions.specs.View.{info_of};
ghost use Rattle.kernel.specs.View.{view_of};
ghost use Rattle.kernel.specs.Valid.{Valid};
ghost use Rattle.kernel.specs.Promises.{Enters};

use crate::state::{Entered, State};
use images::pair::{Bases, Images};
use itron::error::{Error, code_of};
use itron::limit::MAX_REGIONS;
use regions::entry::RegionEntry;
use regions::flag::READ;
use regions::state::RegionInfo;

impl State {
    #[tactic(auto, using(crate::proofs::Back::regions_held))]
    pub(crate) fn check_region(self, given: RegionEntry) -> Result<(), Error>
        requires { Valid self }
        ensures { result ≡ passed (check_entry (view_of self) (region given.domain given.attribute given.base given.size given.vector)) }
    {
        let regions = self.regions;
        self.opening(regions.len(), MAX_REGIONS, self.owns(given.domain))?;
        regions.check(given.attribute, given.base, given.size)
    }

    // As for every kind: a form that all share would take a closure over the state for these four lines.
    pub fn add_region(mut self, given: RegionEntry) -> Entered
        requires { Valid self }
        ensures { Enters self (enter (view_of self) (region given.domain given.attribute given.base given.size given.vector)) result }
    {
        let checked = self.check_region(given);
        if checked.is_err() {
            return self.enter(checked);
        }
        let regions = self.regions;
        self.regions = regions.register(given);
        self.enter(Ok(()))
    }

    // Whether a domain may use an area as it wishes.
    pub(crate) fn verdict(
        &self,
        domain: i32,
        base: u32,
        size: u32,
        wishes: u32,
    ) -> Result<(), Error>
        requires { Valid self.now }
        ensures { result ≡ passed (verdict (view_of self.now) domain base size wishes) }
    {
        if !self.closed {
            return Err(Error::Ctx);
        }
        if !self.owns_task(domain) {
            return Err(Error::Id);
        }
        let regions = self.regions;
        regions.judge(domain, base, size, wishes)
    }

    // The verdict's code, an i32 by document 01. It gives no state back and takes none: the state is lent, and not copied.
    pub fn prb_mem(&self, domain: i32, base: u32, size: u32, wishes: u32) -> i32
        requires { Valid self.now }
        ensures { result ≡ result_of (verdict (view_of self.now) domain base size wishes) }
    {
        code_of(self.verdict(domain, base, size, wishes))
    }

    // Whether a domain may read an area and one of two lent images has all of it.
    pub(crate) fn hand_out<'a>(
        &self,
        domain: i32,
        base: u32,
        size: u32,
        bases: Bases,
        flash: &'a [u8],
        ram: &'a [u8],
    ) -> Result<(), Error>
        requires { Valid self.now }
        ensures { result ≡ passed (hand_out (view_of self.now) domain base size (image bases.flash flash.now) (image bases.ram ram.now)) }
    {
        if !self.closed {
            return Err(Error::Ctx);
        }
        let images = Images::new(bases, flash, ram);
        if !images.are_lendable() {
            return Err(Error::Par);
        }
        self.verdict(domain, base, size, READ)?;
        if !images.is_held(base, size) {
            return Err(Error::Noexs);
        }
        Ok(())
    }

    // The code of handing out an area, an i32 by document 01.
    pub fn get_mem_code<'a>(
        &self,
        domain: i32,
        base: u32,
        size: u32,
        bases: Bases,
        flash: &'a [u8],
        ram: &'a [u8],
    ) -> i32
        requires { Valid self.now }
        ensures { result ≡ result_of (hand_out (view_of self.now) domain base size (image bases.flash flash.now) (image bases.ram ram.now)) }
    {
        code_of(self.hand_out(domain, base, size, bases, flash, ram))
    }

    // The area's bytes, as they stand in the one image that has them; an empty part where the code is not E_OK.
    pub fn get_mem<'a>(
        &self,
        domain: i32,
        base: u32,
        size: u32,
        bases: Bases,
        flash: &'a [u8],
        ram: &'a [u8],
    ) -> &'a [u8]
        requires { Valid self.now }
        ensures { result.now ≡ handed_bytes (view_of self.now) domain base size (image bases.flash flash.now) (image bases.ram ram.now) }
    {
        let allowed = self.hand_out(domain, base, size, bases, flash, ram);
        if allowed.is_err() {
            return &flash[0..0];
        }
        let Some(part) = Images::new(bases, flash, ram).part(base, size) else {
            return &flash[0..0];
        };
        part
    }

    #[tactic(auto, using(crate::proofs::Back::regions_held))]
    pub fn region(self, number: usize) -> RegionInfo
        requires { Valid self }
        ensures { result ≡ info_of (at no_region (view_of self).fixed.regions number) }
    {
        let regions = self.regions;
        regions.region(number)
    }
}
