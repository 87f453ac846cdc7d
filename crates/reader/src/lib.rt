// The log format of document 01: a whole log, its records one after the other, refusals 1 to 10 and 31.
#![tactic(auto)]

mod clients;
pub mod format;
pub mod header;
pub mod log;
mod scan;
