// Reads formulas and rules at a place of a text into their bytes.
#![tactic(auto)]

pub mod reader; // formulas and rules at a place of the text
