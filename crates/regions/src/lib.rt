// Memory regions: the part of the kernel's state that holds them, their entries, and the memory verdict (documents 01 and 02).
#![tactic(auto)]

pub mod chain;
pub mod entry;
pub mod flag;
pub mod search;
pub mod state;
pub mod unit;
pub mod verdict;
