// Nothing runs here: this crate states what the archive of a log is, and proves what is promised of it.
#![tactic(auto)]
