// The tables that a trace leaves.
#![tactic(auto)]

pub mod replaying;
