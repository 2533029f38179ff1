// A list of calls, lent as numbers, made one after the other (document 01, "Pinning every answer down": the list as a whole).
#![tactic(auto)]

pub mod answer;
pub mod asked;
pub mod numbers;
pub mod perform;
pub mod run;
pub mod word;
