// The search of a model over any table that serves a rule: marks forward, useful pairs backward, then the pick.
#![tactic(auto)]

mod backward; // the backward pass
mod choose; // the pick
pub mod inner; // the search over a table
