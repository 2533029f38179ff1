// What a line of `replay`'s input asks. Bytes in, a command and its echo out: no input or output, and no kernel.
#![tactic(auto)]

mod dtq;
pub mod entry;
pub mod flaw;
pub mod line;
pub mod mem;
pub mod number;
mod numbers;
pub mod parse;
pub mod request;
mod sem;
pub mod shape;
pub mod svc;
pub mod text;
mod verb;
pub mod word;
