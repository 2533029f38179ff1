// Domain numbers: special domains are below zero, user domains count from 1.
ghost use Rattle.std.specs.Prelude.{◌≡◌};
ghost use Rattle.access.specs.Domains.{ordinal_of, numbered, running_of};

pub const KERNEL_DOMAIN: i32 = -1;

// The owner of what belongs to no domain.
pub const NO_DOMAIN: i32 = -2;

// A number from 1 to the limit, as it is; none of any other. The sign is tested before the cast.
pub fn ordinal(number: i32, limit: usize) -> Option<usize>
    ensures { result ≡ numbered (ordinal_of number limit) }
{
    if number < 1 {
        return None;
    }
    let n = number as usize;
    if limit < n {
        return None;
    }
    Some(n)
}

// The domain as which a task of a domain runs: inside extended service calls, that is above level 0, it is the kernel's.
pub fn running(domain: i32, level: u8) -> i32
    ensures { result ≡ running_of domain level }
{
    if level == 0 {
        return domain;
    }
    KERNEL_DOMAIN
}
