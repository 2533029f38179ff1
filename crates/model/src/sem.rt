// Semaphores.
use crate::Patience;
use access::vector::Vector;

// A semaphore, as its entry gave it, with its present count and vector.
#[derive(Clone, Copy)]
pub struct Semaphore {
    pub domain: i32,
    pub attribute: u32,
    pub max: u32,
    pub count: u32,
    pub vector: Vector,
}

// A semaphore's own calls: signal; poll and wait.
#[derive(Clone, Copy)]
pub enum SemaphoreCall {
    Signal,
    Acquire(Patience),
}

// What can be asked of a semaphore.
#[derive(Clone, Copy)]
pub enum SemaphoreRequest {
    Own(SemaphoreCall),
    Refer,
    SetVector(Vector),
}
