// A pattern is 32 bits: bit d - 1 admits user domain d.
ghost use Rattle.std.specs.Prelude.{◌≡◌};
ghost use Rattle.access.specs.Patterns.{admitted};

use crate::domain::{KERNEL_DOMAIN, ordinal};
use itron::limit::MAX_DOMAINS;

// Whether a pattern admits a domain. Moved up by one in 64 bits, it has domain d's bit at d and a zero at 0, nobody's.
pub fn admits(pattern: u32, domain: i32) -> bool
    ensures { result ≡ admitted pattern domain }
{
    domain == KERNEL_DOMAIN
        || ((pattern as u64) << 1 >> ordinal(domain, MAX_DOMAINS).unwrap_or(0)) & 1 == 1
}
