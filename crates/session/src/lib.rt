// Sessions: a log fed one record at a time into a lent buffer. The functions work on the buffer and on the session's two
// numbers; specs/Session.antt says what is right.
#![tactic(auto)]

pub mod feed;
pub mod held;
pub mod session;
