// What a call leaves in a buffer that is lent to it, and what it answers.
#![tactic(auto)]

pub mod buffer;
