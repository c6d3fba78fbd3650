// The model without the states from which no endless run leaves, numbers kept.
ghost use Rattle.std.specs.Prelude.{◌≡◌, ◌≤◌};
ghost use Rattle.models.specs.Model.{model_states};
ghost use Rattle.models.specs.Stored.{Held, column};
ghost use Rattle.lasting.specs.Stored.{kept_ways_of, WithoutDeadEnds};

use crate::rounds::lasting_states;
use models::ModelData;

// Each state's successors that are in the set.
fn kept_ways(set: u64, successors: &[u64; 64], states: usize) -> [u64; 64]
    requires { states ≤ model_states }
    ensures { result ≡ column states (kept_ways_of set successors.now) }
{
    let mut ways = [0u64; 64];
    for k in 0..states {
        ways[k] = successors[k] & set;
    }
    ways
}

// A step from a state that is taken out enters one that is, so it is enough to keep to the set where a run begins and where it goes.
pub fn without_dead_ends(model: ModelData) -> ModelData
    requires { Held model }
    ensures { WithoutDeadEnds model result }
{
    let set = lasting_states(model.states, &model.successors);
    let successors = kept_ways(set, &model.successors, model.states);
    ModelData {
        states: model.states,
        letters: model.letters,
        initial: model.initial & set,
        successors,
    }
}
