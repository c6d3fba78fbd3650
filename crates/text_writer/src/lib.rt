// Writes the text of the formulas and rules that stand in some bytes.
#![tactic(auto)]

pub mod writer; // the text of what stands in the bytes
