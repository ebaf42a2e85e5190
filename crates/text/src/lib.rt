// The text of a trace in print, byte for byte: what a row is, the rows of each view, the one loop that puts them into a buffer, and
// files of traces, each under its title.
#![tactic(auto)]

pub mod files;
mod items;
mod parts;
pub mod printing;
mod sums;
mod tables;
pub mod views;
mod why;
