// The text of a list of what differs, and a list read back from it.
#![tactic(auto)]

pub mod lines;
pub mod printing;
mod reading;
pub mod texts;
mod words;
