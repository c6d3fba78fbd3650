// Where the bytes of a state stand, and what they may be.

// A state's record is 11 bytes: the kind, then at these places the letter, the flag and 8 bytes of successors.
pub const KIND: u8 = 0x20;

pub const RECORD: usize = 11;

pub const LETTER: usize = 1;

pub const FLAG: usize = 2;

pub const SUCCESSORS: usize = 3;

// The most states that a model may have.
pub const MOST: usize = 64;

// The last letter, and the flag of an initial state: the largest that these bytes may be.
pub const LAST_LETTER: u8 = 63;

pub const INITIAL: u8 = 1;
