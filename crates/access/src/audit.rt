// The audit report: whom the patterns of a vector admit.
ghost use Rattle.std.specs.Prelude.{◌≡◌, ◌≤◌};
ghost use Rattle.itron.specs.Limits.{max_domains};
ghost use Rattle.access.specs.Audits.{admissions_of, audit_of};

use crate::vector::Vector;
use itron::code::{E_OK, E_PAR};
use itron::limit::MAX_DOMAINS;

// How many user domains a pattern admits, and the lowest of them; with nobody admitted both are 0.
#[derive(Clone, Copy)]
pub struct Admissions {
    pub count: u32,
    pub lowest: u32,
}

impl Admissions {
    pub(crate) const NONE: Admissions = Admissions {
        count: 0,
        lowest: 0,
    };
}

#[derive(Clone, Copy)]
pub struct AuditReport {
    // An i32, and zeros beside a refusal, by document 01 ("Where each form goes"; "E_PAR, all numbers 0").
    pub code: i32,
    pub normal1: Admissions,
    pub normal2: Admissions,
    pub management: Admissions,
    pub reference: Admissions,
}

impl AuditReport {
    pub(crate) const REFUSED: AuditReport = AuditReport {
        code: E_PAR,
        normal1: Admissions::NONE,
        normal2: Admissions::NONE,
        management: Admissions::NONE,
        reference: Admissions::NONE,
    };
}

// The report of one pattern for n user domains: the bits above n are masked out.
pub(crate) fn report(pattern: u32, n: usize) -> Admissions
    requires { n ≤ max_domains }
    ensures { result ≡ admissions_of pattern n }
{
    // In 64 bits, since n may be 32.
    let above: u64 = 1 << n;
    let wide = pattern as u64;
    let masked = (wide & (above - 1)) as u32;
    if masked == 0 {
        return Admissions::NONE;
    }
    Admissions {
        count: u32::count_ones(masked),
        lowest: u32::trailing_zeros(masked) + 1,
    }
}

// The audit report of a vector for n user domains. The sign is tested before the cast.
pub fn audit(vector: Vector, n: i32) -> AuditReport
    ensures { result ≡ audit_of vector n }
{
    if n < 0 {
        return AuditReport::REFUSED;
    }
    let domains = n as usize;
    if MAX_DOMAINS < domains {
        return AuditReport::REFUSED;
    }
    AuditReport {
        code: E_OK,
        normal1: report(vector.normal1, domains),
        normal2: report(vector.normal2, domains),
        management: report(vector.management, domains),
        reference: report(vector.reference, domains),
    }
}
