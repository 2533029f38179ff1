// Two lent images, flash and RAM, and the part of one of them in which an area lies (document 02, T-13). No state.
#![tactic(auto)]

pub mod image;
pub mod pair;
