// What a host in C links: the exports of crate host, under the names that nil.h has. A crate is a library or a static library, and not
// both: promises stands on host as a library, and this is the archive.
// The functions repeat those of host: C links each by its own name out of this archive.
#![tactic(auto)]

pub mod broken;
pub mod comparing;
pub mod layout;
pub mod piping;
pub mod reads;
pub mod request;
pub mod screen;
pub mod setup;
pub mod times;
pub mod writes;
