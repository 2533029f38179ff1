// The kernel core (document 01): the state by value, and every operation on it.
#![tactic(auto)]

pub mod call;
pub mod check;
pub mod dtq;
pub mod mem;
pub mod query;
pub mod sem;
pub mod state;
pub mod svc;
pub mod table;
