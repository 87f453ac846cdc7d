// A remove that has not returned: which it is, and the one value that it may have taken.
#![tactic(auto)]

pub mod fates;
