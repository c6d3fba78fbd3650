// The numbers of the refusals that are neither a rule's nor a model's: several calls share them.

// A lent slice is too short.
pub const SHORT_SLICE: u64 = 21;

// What stands in a letter's place is none.
pub const BAD_LETTER: u64 = 22;

// There are more letters than the plain judge takes.
pub const TOO_MANY_LETTERS: u64 = 23;

// What is lent as a table is none: its weight is 0 or above 64, or a final or a label lies outside it.
pub const NO_TABLE: u64 = 24;

// A walker's count of letters is at its largest.
pub const FULL_COUNT: u64 = 25;
