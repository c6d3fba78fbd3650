// The text of a rule, character by character: what may stand at a place, and what may follow it.
#![tactic(auto)]

pub mod words; // characters at a place of the text
pub mod counts; // counts at a place of the text
pub mod signs; // what may follow a first operand
