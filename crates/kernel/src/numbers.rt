// The numbers that the manual and document 01 fix, each under one name.

// No thread: idle where the running thread is meant, an interrupt where a caller is, an empty reference where a holder is.
pub const NOBODY: u8 = 255;
// The place of a thread that waits on no object. Only a queued or a suspended thread's place is read.
pub const NOWHERE: u16 = 0;

// How many rows each table has; of the threads the first T are in use.
pub const THREADS: u8 = 16;

// Messages: MSG_OK, MSG_TIMEOUT and MSG_RESET of the manual.
pub const OK: i32 = 0;

pub const TIMED_OUT: i32 = -1;

pub const WAS_RESET: i32 = -2;
// What a signal answers that did not count.
pub const NOT_COUNTED: i32 = 1;

// The last number of a step, which stays.
pub const LAST_STEP: u32 = 4294967295;

// The top of a counter.
pub const TOP: i32 = 2147483647;

// Ticks a second where no frequency is given. Two frequencies of 1000 are not this one, and stay where it changes: the one that the
// programs which read a trace give (`LISTED_FREQUENCY`, in `text` and `replays`), and that of a settings file of version 1 (document 02, 11/13).
pub const USUAL_FREQUENCY: u32 = 10000;

// Intervals: TIME_IMMEDIATE and TIME_INFINITE, with document 01's numbers.
pub const IMMEDIATE: u32 = 0;

pub const INFINITE: u32 = 4294967295;
