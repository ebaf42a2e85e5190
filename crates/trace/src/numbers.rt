// The numbers of a trace, each under one name.

// The version byte, the length of a step's body, the length of a step's record, and the longest trace.
pub const VERSION: u8 = 1;

pub const STEP_BODY: u16 = 11;

pub const STEP_RECORD: usize = 13;

pub const LONGEST: usize = 60000;
