// The boundary to a host in C: every function that a host calls, which crate host_c exports. Each reads what it was lent, has functions
// by value do the work, and stores what they gave. What a host owns has C's layout, no padding and no truth value: any bytes of it are legal values.
#![tactic(auto)]

pub mod broken;
pub mod comparing;
pub mod layout;
pub mod piping;
pub mod reads;
pub mod request;
pub mod screen;
pub mod setup;
pub mod times;
pub mod writes;
