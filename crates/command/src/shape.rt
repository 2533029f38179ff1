// How many numbers follow a command's word.
ghost use Rattle.std.specs.Prelude.{◌≡◌};

// How many signed numbers come first, how many unsigned ones after them, and how many more may follow, all or none.
#[derive(Clone, Copy)]
pub struct Shape {
    pub signed: usize,
    pub unsigned: usize,
    pub optional: usize,
}

// The patterns of a vector.
pub const PATTERNS: usize = 4;

impl Shape {
    // Nothing may be left out.
    pub fn fixed(signed: usize, unsigned: usize) -> Shape
        ensures { (result.signed ≡ signed) × (result.unsigned ≡ unsigned) × (result.optional ≡ 0) }
    {
        Shape {
            signed,
            unsigned,
            optional: 0,
        }
    }

    // A call's on an object: the caller's number and the object's come before its own.
    pub fn call(unsigned: usize) -> Shape
        ensures { (result.signed ≡ 2) × (result.unsigned ≡ unsigned) × (result.optional ≡ 0) }
    {
        Shape::fixed(2, unsigned)
    }

    // One signed number, and at the end what may be left out: an entry's vector, a task's priority, a fresh table's unit.
    pub fn open(unsigned: usize, optional: usize) -> Shape
        ensures { (result.signed ≡ 1) × (result.unsigned ≡ unsigned) × (result.optional ≡ optional) }
    {
        Shape {
            signed: 1,
            unsigned,
            optional,
        }
    }
}
