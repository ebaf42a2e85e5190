// Traces: a version byte, then records, length first. The reader and the writer on slices and numbers, and a reader with a place.
#![tactic(auto)]

pub mod cursor;
pub mod decoding;
pub mod numbers;
pub mod ordered;
pub mod writer;
