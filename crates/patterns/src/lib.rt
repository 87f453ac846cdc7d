// The six patterns: the first one that occurs is found, with its operations.
#![tactic(auto)]

mod blocked;
mod chain;
pub mod find;
pub mod pattern;
mod signs;
