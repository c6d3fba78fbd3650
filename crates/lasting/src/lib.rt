// The states from which a model can go on for ever, and the model without the others: a dead end is a half-drawn job, and closes no run.
#![tactic(auto)]

ghost use Rattle.lasting.specs.Answer.{told, LastingRight};

use crate::rounds::lasting_states;

mod rounds; // the set, round by round
pub mod alive; // the model without the states outside it

// Which states last: of so many states the set of those from which an endless run leaves.
#[derive(Clone, Copy, Debug, PartialEq, Eq)]
pub struct LastingStates {
    pub states: usize,
    pub set: u64,
}

// The states of a model from which an endless run leaves, or the model's own refusal: any bytes have one answer.
pub fn lasting(model: &[u8]) -> Result<LastingStates, models::Refusal>
    ensures { LastingRight model.now (told result) }
{
    let read = models::read_model(model);
    read.answer?;
    let states = read.model.states;
    let set = lasting_states(states, &read.model.successors);
    Ok(LastingStates { states, set })
}
