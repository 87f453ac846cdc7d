// A map from keys to the entries that hold them.
#![tactic(auto)]

pub mod chain;
pub mod map;
pub mod narrow;
