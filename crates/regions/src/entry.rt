// Region entries (document 01, "Building the table").
ghost use Rattle.std.specs.Prelude.{◌≡◌, ◌<◌, [], ◌∷◌, ◌++◌, length};
ghost use Rattle.itron.specs.Limits.{max_regions};
ghost use Rattle.model.specs.Checks.{passed};
ghost use Rattle.model.specs.Regions.{attribute_ok, is_area, last_end};
ghost use Rattle.regions.specs.View.{regions_of};
ghost use Rattle.regions.specs.Form.{regions_as};
ghost use Rattle.regions.specs.Held.{Held};
ghost use Rattle.std.specs.Prelude.{Some as Given};
ghost use Rattle.model.specs.Regions.{new_region};
ghost use Rattle.regions.specs.Entries.{entry_check};

use crate::flag::{EXECUTABLE, NO_WRITE};
use crate::state::{Protection, Regions};
use crate::unit::is_whole;
use access::vector::Vector;
use itron::error::Error;
use itron::limit::ADDRESS_END;

#[derive(Clone, Copy)]
pub struct RegionEntry {
    pub domain: i32,
    pub attribute: u32,
    pub base: u32,
    pub size: u32,
    pub vector: Option<Vector>,
}

// Whether an attribute has no bits but no-write and execute.
pub(crate) fn is_attribute(attribute: u32) -> bool
    ensures { result ≡ attribute_ok attribute }
{
    attribute & (NO_WRITE | EXECUTABLE) == attribute
}

// Whether an area has bytes and ends within the addresses. The sum is made in 64 bits.
pub(crate) fn is_area(base: u32, size: u32) -> bool
    ensures { result ≡ is_area base size }
{
    (1 <= size) & (base as u64 + size as u64 <= ADDRESS_END)
}

impl Regions {
    // The end of the region entered last, 0 where there is none.
    pub(crate) fn last_end(self) -> u64
        requires { Held self }
        ensures { result ≡ last_end (regions_of self) }
    {
        let Some(last) = self.count.checked_sub(1) else {
            return 0;
        };
        self.at(last).end()
    }

    // An entry's attribute and numbers, by the checks of document 01 in their order.
    pub fn check(self, attribute: u32, base: u32, size: u32) -> Result<(), Error>
        requires { Held self }
        ensures { result ≡ passed (entry_check self.unit (regions_of self) attribute base size) }
    {
        let known = is_attribute(attribute);
        let fits = is_area(base, size) & is_whole(self.unit, base, size);
        let free = self.last_end() <= base as u64;
        if !known {
            return Err(Error::Rsatr);
        }
        if !fits {
            return Err(Error::Par);
        }
        if !free {
            return Err(Error::Obj);
        }
        Ok(())
    }

    // The regions with one more, the last.
    pub(crate) fn add(
        mut self,
        domain: i32,
        attribute: u32,
        base: u32,
        size: u32,
        vector: Vector,
    ) -> Regions
        requires { Held self × (length (regions_of self) < max_regions) }
        ensures { result ≡ regions_as self.unit (regions_of self ++ (new_region domain attribute base size (Given vector) ∷ [])) }
    {
        let index = self.count;
        self.bases[index] = base;
        self.sizes[index] = size;
        let protection = Protection {
            domain,
            attribute,
            vector,
        };
        self.protections[index] = protection;
        self.count = index + 1;
        self
    }

    // One region more, as given, its default vector resolved.
    pub fn register(self, given: RegionEntry) -> Regions
        requires { Held self × (length (regions_of self) < max_regions) }
        ensures { result ≡ regions_as self.unit (regions_of self ++ (new_region given.domain given.attribute given.base given.size given.vector ∷ [])) }
    {
        let vector = Vector::resolved(given.vector, given.domain);
        self.add(
            given.domain,
            given.attribute,
            given.base,
            given.size,
            vector,
        )
    }
}
