// What a host keeps, number by number: two sets of tables compared and the list applied, and tables as bytes, in a file.
#![tactic(auto)]

pub mod applying;
pub mod bytes;
pub mod cells;
pub mod checksum;
pub mod comparing;
pub mod laying;
pub mod order;
pub mod renewing;
pub mod saving;
pub mod storing;
