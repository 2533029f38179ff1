// What the checks of a call find, where none of them refuses.
use access::vector::Vector;

// The object that a number names, by its index, with the vector that calls on it are judged by.
#[derive(Clone, Copy)]
pub struct Target {
    pub object: usize,
    pub vector: Vector,
}

// The indexes of the calling task and of the object.
#[derive(Clone, Copy)]
pub struct Admitted {
    pub task: usize,
    pub object: usize,
}
