// Bit values of a region's attribute and of the wishes, as document 01 fixes them.
ghost use Rattle.std.specs.Prelude.{◌≡◌};
ghost use Rattle.regions.specs.Flags.{IsBit, has_value};

// The attribute: nobody writes.
pub const NO_WRITE: u32 = 1;

// The attribute: what lies there may be executed.
pub const EXECUTABLE: u32 = 4;

pub const WRITE: u32 = 1;

pub const READ: u32 = 2;

pub const EXECUTE: u32 = 4;

// Whether the bit of that value, which is a power of two, is set.
pub(crate) fn has(flags: u32, value: u32) -> bool
    requires { IsBit value }
    ensures { result ≡ has_value flags value }
{
    flags & value != 0
}
