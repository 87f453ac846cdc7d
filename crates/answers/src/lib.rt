// What turns the answer of a call into the number that the C interface returns, and the work of the session calls on numbers
// and slices. The exports of the crate yauponroof only pass on. specs/Answer.antt and specs/Session.antt say what is right.
#![tactic(auto)]

pub mod answer;
pub mod sessions;
