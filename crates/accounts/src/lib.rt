// An account of a run: what was posted, fetched and lost, what was added to a pool, and who has which object.
// It is read off steps, their results and the tables around them. The tables keep no count for it.
#![tactic(auto)]

pub mod account;
pub mod accounting;
