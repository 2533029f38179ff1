// Extended service calls (request T-03).

// What a task can do to its level: enter a checked library routine, which runs as the kernel domain, and leave it again.
#[derive(Clone, Copy)]
pub enum ExtendedCall {
    Enter,
    Leave,
}
