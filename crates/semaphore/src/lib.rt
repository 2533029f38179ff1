// Semaphores: their records, their entries, and what signal, poll, wait, refer and set-vector do (document 01).
#![tactic(auto)]

pub mod call;
pub mod entry;
pub mod state;
