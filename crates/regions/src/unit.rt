// The protection unit (document 02, T-06).
ghost use Rattle.std.specs.Prelude.{◌≡◌, ◌<◌};
ghost use Rattle.model.specs.Units.{unit_ok, is_whole};

use itron::limit::MAX_UNIT;

// Whether a table may have this unit. A power of two has one bit.
pub fn is_unit(unit: u32) -> bool
    ensures { result ≡ unit_ok unit }
{
    (u32::count_ones(unit) == 1) & (unit <= MAX_UNIT)
}

// Whether an area is made of whole units.
pub(crate) fn is_whole(unit: u32, base: u32, size: u32) -> bool
    requires { 0 < unit }
    ensures { result ≡ is_whole unit base size }
{
    (base % unit == 0) & (size % unit == 0)
}
