// The states from which an endless run leaves: all states, less those without a successor in what is left, until nothing changes.
ghost use Rattle.std.specs.Prelude.{◌≤◌, T, length};
ghost use Rattle.bits.specs.Word.{bit};
ghost use Rattle.bits.specs.Sets.{Members};
ghost use Rattle.models.specs.Model.{model_states};
ghost use Rattle.lasting.specs.Endless.{EndlessSet};
ghost use Rattle.lasting.specs.inner.Kept.{follows, GoesOn};

use bits::rising::members;

// The states of the set that have a successor in it.
fn round(successors: &[u64], set: u64) -> u64
    requires { model_states ≤ length successors.now }
    ensures { Members result (λ k. T (bit set k) × GoesOn successors.now set k) }
{
    let mut kept: u64 = 0;
    for k in members(set) {
        kept = bits::with_if(kept, k, successors[k] & set != 0);
    }
    kept
}

// Each round but the last takes out a state: at most 64 that change something, and one that does not.
pub fn lasting_states(states: usize, successors: &[u64]) -> u64
    requires { (states ≤ model_states) × (model_states ≤ length successors.now) }
    ensures { EndlessSet states (follows successors.now) result }
{
    let all = bits::below(states);
    let mut set = all;
    let mut kept = round(successors, set);
    while kept != set {
        set = kept;
        kept = round(successors, set);
    }
    set
}
