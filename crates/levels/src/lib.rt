// The levels of extended service calls (request T-03): each task's, and what entering and leaving does to it.
#![tactic(auto)]

pub mod call;
pub mod state;
