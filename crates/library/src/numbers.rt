// The numbers of document 01 that the library part adds, each under one name.

// No slot, in the meanings: a mailbox that has no room, or no message. In damaged tables a place may be 255 too, and counts as none.
pub const NO_SLOT: u16 = 255;

// An object's marks.
pub const ABSENT: u8 = 0;

pub const FREE_MARK: u8 = 1;

pub const OUT: u8 = 2;
