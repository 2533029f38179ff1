// Access patterns and vectors (document 01, "Patterns and vectors"). No state.
#![tactic(auto)]

pub mod audit;
pub mod domain;
pub mod pattern;
pub mod vector;
