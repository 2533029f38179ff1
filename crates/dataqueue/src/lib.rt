// The data queues: their records and their words, with what each call does to them (document 01).
#![tactic(auto)]

pub mod buffer;
pub mod call;
pub mod entry;
pub mod state;
