// The regions that the kernel's state holds, in the order of their entries, which is that of their addresses, and the protection unit.
ghost use Rattle.std.specs.Prelude.{◌≡◌, ◌<◌, [], length, get_or};
ghost use Rattle.model.specs.Lists.{at};
ghost use Rattle.model.specs.State.{no_region};
ghost use Rattle.model.specs.Regions.{end};
ghost use Rattle.regions.specs.View.{region_with, regions_of, info_of, shown_as};
ghost use Rattle.regions.specs.Form.{protection_of, regions_as};
ghost use Rattle.regions.specs.Held.{Held};

use access::vector::Vector;
use itron::limit::MAX_REGIONS;

// What a region has besides its place.
#[derive(Clone, Copy, PartialEq, Eq)]
pub struct Protection {
    pub(crate) domain: i32,
    pub(crate) attribute: u32,
    pub(crate) vector: Vector,
}

impl Protection {
    pub(crate) const NONE: Protection = Protection {
        domain: 0,
        attribute: 0,
        vector: Vector::KERNEL,
    };
}

// The first `count` cells of each array are used, the others are zeros. Bases and sizes are arrays of numbers, so that they can be lent, as `finding_find` is lent them from C.
#[derive(Clone, Copy)]
pub struct Regions {
    pub(crate) count: usize,
    pub(crate) bases: [u32; MAX_REGIONS],
    pub(crate) sizes: [u32; MAX_REGIONS],
    pub(crate) protections: [Protection; MAX_REGIONS],
    // The protection unit, of which every region is made.
    pub(crate) unit: u32,
}

// A region as it is shown; all zeros where there is none.
#[derive(Clone, Copy)]
pub struct RegionInfo {
    pub domain: i32,
    pub attribute: u32,
    pub base: u32,
    pub size: u32,
    pub vector: Vector,
}

impl RegionInfo {
    pub(crate) const NONE: RegionInfo = RegionInfo {
        domain: 0,
        attribute: 0,
        base: 0,
        size: 0,
        vector: Vector::KERNEL,
    };

    // A region by its place and its protection.
    pub(crate) fn of(base: u32, size: u32, protection: Protection) -> RegionInfo
        ensures { result ≡ info_of (region_with base size protection) }
    {
        let vector = protection.vector;
        RegionInfo {
            domain: protection.domain,
            attribute: protection.attribute,
            base,
            size,
            vector,
        }
    }

    // What it has besides its place.
    pub(crate) fn protection(self) -> Protection
        ensures { result ≡ protection_of (shown_as self) }
    {
        Protection {
            domain: self.domain,
            attribute: self.attribute,
            vector: self.vector,
        }
    }

    // The first address past the region, in 64 bits since it may be 2^32.
    pub(crate) fn end(self) -> u64
        ensures { result ≡ end (shown_as self) }
    {
        self.base as u64 + self.size as u64
    }
}

impl Regions {
    pub fn empty(unit: u32) -> Regions
        ensures { result ≡ regions_as unit [] }
    {
        Regions {
            count: 0,
            bases: [0; MAX_REGIONS],
            sizes: [0; MAX_REGIONS],
            protections: [Protection::NONE; MAX_REGIONS],
            unit,
        }
    }

    pub fn len(self) -> usize
        requires { Held self }
        ensures { result ≡ length (regions_of self) }
    {
        self.count
    }

    pub fn unit(self) -> u32
        ensures { result ≡ self.unit }
    {
        self.unit
    }

    // The region at an index; an index is a number less 1.
    pub(crate) fn at(self, index: usize) -> RegionInfo
        requires { Held self × (index < self.count) }
        ensures { result ≡ info_of (get_or (regions_of self) index no_region) }
    {
        let protection = self.protections[index];
        RegionInfo::of(self.bases[index], self.sizes[index], protection)
    }

    // The region of a number, whatever the number.
    pub fn region(self, number: usize) -> RegionInfo
        requires { Held self }
        ensures { result ≡ info_of (at no_region (regions_of self) number) }
    {
        match number.checked_sub(1) {
            Some(index) if index < self.count => self.at(index),
            _ => RegionInfo::NONE,
        }
    }
}
