// The tasks: what each does, and in which order those who wait began to (document 01, "Calls on an open gateway").
#![tactic(auto)]

pub mod effect;
pub mod entry;
pub mod lead;
pub mod order;
pub mod state;
pub mod task;
pub mod wait;
