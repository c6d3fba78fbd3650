// The automaton of a rule as a table has it: its cells, its final states and its shape.
#![tactic(auto)]

pub mod step; // whether a letter leads from one state to another
pub mod cells; // the label from one state to another
pub mod finals; // sets of final states
pub mod shape; // where a rule ends, its weight and its finals

// The most states of a table, and the entries that it takes: a row of labels for each state.
pub const STATES: usize = 64;

pub const TABLE_ENTRIES: usize = STATES * STATES;
