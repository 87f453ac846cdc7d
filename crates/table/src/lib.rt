// Tables of numbers, with an entry for each record that a log may have.
#![tactic(auto)]

pub mod table;
