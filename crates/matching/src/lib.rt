// Which removes take the values of which adds, how far the values reach, and what is noted at the returns of adds: the tables that finding an order
// and finding a pattern both go by.
#![tactic(auto)]

pub mod reaches;
pub mod returns;
pub mod values;
pub mod view;
