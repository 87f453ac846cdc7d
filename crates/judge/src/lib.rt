// The judge: a log goes in, and a legal order of its operations or the first pattern that rules every order out is written on a sheet.
// This crate knows nothing of replay.
#![tactic(auto)]

pub mod decide;
pub mod judge;
