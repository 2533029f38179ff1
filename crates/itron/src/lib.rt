// What every room of the core shares: attributes, result codes and limits (documents 01 and 02). No state.
#![tactic(auto)]

pub mod attribute;
pub mod code;
pub mod error;
pub mod limit;
