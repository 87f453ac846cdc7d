// The page of a short log: its operations in time, drawn as lines of text.
#![tactic(auto)]

mod line;
pub mod page;
mod spans;
