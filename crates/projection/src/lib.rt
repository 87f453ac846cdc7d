// Logs written out of a log: narrowing to values, and the excerpt of a pattern.
#![tactic(auto)]

pub mod excerpt;
mod keep;
mod mark;
mod measure;
pub mod narrow;
pub mod write;
