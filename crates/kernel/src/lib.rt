// The kernel part: threads, time, references, queues, semaphores and events of ChibiOS/NIL.
// Every function is total: it answers for any value of its arguments, and its `ensures` is its whole result.
// Tables go in and come out by value; the host owns what lies between two steps.
#![tactic(auto)]

pub mod causes;
pub mod clock;
pub mod counters;
pub mod delay;
pub mod event;
pub mod kinds;
pub mod moves;
pub mod numbers;
pub mod places;
pub mod queue;
pub mod records;
pub mod reference;
pub mod refusals;
pub mod semaphore;
pub mod states;
pub mod tables;
pub mod ticking;
pub mod time;
pub mod units;
pub mod waiters;
pub mod words;
