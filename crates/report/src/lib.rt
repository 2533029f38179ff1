// Answers and the state as text (docs/replay.md, "Output"): what a value is has a view that `{}` shows, and the lines of a dump
// are written to any writer.
#![tactic(auto)]

pub mod dtq;
pub mod dump;
pub mod line;
pub mod mem;
pub mod names;
pub mod sem;
pub mod show;
pub mod task;
