// What bench-rust/ times: calls made in a loop, exported for a host. The numbers of the calls are the host's, so that the compiler
// does not know them, and every call of the kernel is made somewhere, so that it does not know what is asked either.
// Loops that time different calls keep a `for` each: measured, by a closure they copy up to a third more bytes a round.
#![tactic(auto)]

pub mod count;
pub mod dtq;
pub mod each;
pub mod mem;
pub mod order;
pub mod rounds;
pub mod sem;
pub mod svc;
pub mod table;
