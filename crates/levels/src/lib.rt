// The pairs that a search reaches, level by level.
#![tactic(auto)]

pub mod shape; // what the passes hand to each other
pub mod searching; // what they go through
pub mod rows; // the table's rows for the letters that the model has
pub mod marks; // marks of pairs, and their queue
pub mod senders; // what states hand on
pub mod sweep; // one level of the forward pass
pub mod forward; // the forward pass
