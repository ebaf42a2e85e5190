// The library part, over the kernel part's contracts: whole tables, binary semaphores, mailboxes, guarded pools, acting and settling.
// Every function is total: it answers for any value of its arguments, and its `ensures` is its whole result.
#![tactic(auto)]

pub mod acting;
pub mod binary;
pub mod calls;
pub mod causes;
pub mod fresh;
pub mod mailbox;
pub mod numbers;
pub mod pool;
pub mod ring;
pub mod settling;
pub mod signs;
pub mod sizes;
pub mod tables;
