// Byte pipes over buffers that are lent at each call. They stand beside the tables: no step and no trace knows of them.
#![tactic(auto)]

pub mod carrying;
pub mod judging;
pub mod opening;
pub mod table;
pub mod transfer;
