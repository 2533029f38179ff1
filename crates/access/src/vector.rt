// Access vectors: a pattern for each kind of operation.
ghost use Rattle.std.specs.Prelude.{◌≡◌};
ghost use Rattle.access.specs.Vectors.{pattern_of, private_of, default_of, resolved};

use crate::domain::{NO_DOMAIN, ordinal};
use itron::limit::MAX_DOMAINS;

// The kinds of operation that a vector's patterns stand for.
#[derive(Clone, Copy)]
pub enum Operation {
    Normal1,
    Normal2,
    Management,
    Reference,
}

#[derive(Clone, Copy, PartialEq, Eq)]
pub struct Vector {
    pub normal1: u32,
    pub normal2: u32,
    pub management: u32,
    pub reference: u32,
}

impl Vector {
    // Kernel only.
    pub const KERNEL: Vector = Vector {
        normal1: 0,
        normal2: 0,
        management: 0,
        reference: 0,
    };

    pub const SHARED: Vector = Vector {
        normal1: 0xffff_ffff,
        normal2: 0xffff_ffff,
        management: 0xffff_ffff,
        reference: 0xffff_ffff,
    };

    // Private to a user domain; kernel only for a number outside 1 to 32.
    pub fn private(domain: i32) -> Vector
        ensures { result ≡ private_of domain }
    {
        let Some(d) = ordinal(domain, MAX_DOMAINS) else {
            return Vector::KERNEL;
        };
        let bit: u32 = 1 << (d - 1);
        Vector {
            normal1: bit,
            normal2: bit,
            management: bit,
            reference: bit,
        }
    }

    // The vector of an entry that gives none; private already means kernel only for the kernel domain.
    pub fn default_for(domain: i32) -> Vector
        ensures { result ≡ default_of domain }
    {
        if domain == NO_DOMAIN {
            return Vector::SHARED;
        }
        Vector::private(domain)
    }

    // The vector of an entry of a domain: the one that it gives, or the default.
    pub fn resolved(given: Option<Vector>, domain: i32) -> Vector
        ensures { result ≡ resolved domain given }
    {
        given.unwrap_or(Vector::default_for(domain))
    }

    pub fn pattern(self, operation: Operation) -> u32
        ensures { result ≡ pattern_of self operation }
    {
        match operation {
            Operation::Normal1 => self.normal1,
            Operation::Normal2 => self.normal2,
            Operation::Management => self.management,
            Operation::Reference => self.reference,
        }
    }
}
