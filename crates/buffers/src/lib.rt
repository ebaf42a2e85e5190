// Text put into a lent buffer: what all that is printed stands on.
#![tactic(auto)]

pub mod putting;
