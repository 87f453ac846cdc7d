// An order held against a log. This crate knows a log through the reader's promise and its operations through the history's, and
// nothing of how an order is found.
#![tactic(auto)]

mod order;
pub mod replay;
