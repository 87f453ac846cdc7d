// The search for a legal order of the operations in a table.
#![tactic(auto)]

mod bounds;
mod gaps;
pub mod order;
mod search;
