// Lines of text and decimal numbers, written into a lent buffer.
#![tactic(auto)]

pub mod text;
