// The operations of a readable log: what each is, and when it was called and returned; and the sheet, which lists operations in bytes.
#![tactic(auto)]

mod batches;
pub mod fill;
pub mod operations;
pub mod owners;
pub mod sheet;
pub mod walk;
