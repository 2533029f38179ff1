// What the programs write: result codes by their names.
#![tactic(auto)]

pub mod code;
