// The forward pass, level by level.
ghost use Rattle.std.specs.Prelude.{◌≡◌, ℕ, suc, ◌*◌, ◌<◌, ◌≤◌, T, length, get_or};
ghost use Rattle.bits.specs.Word.{bit};
ghost use Rattle.bits.specs.Says.{Says};
ghost use Rattle.bits.specs.Sets.{Below, Over, In};
ghost use Rattle.tables.specs.Beyond.{Beyond};
ghost use Rattle.automata.specs.Table.{table_states};
ghost use Rattle.models.specs.Model.{model_states};
ghost use Rattle.levels.specs.Lent.{pair_count};
ghost use Rattle.levels.specs.inner.Through.{its_model, its_table, its_labels};
ghost use Rattle.levels.specs.inner.Passes.{Along, Ended, FromAll, Workspace, Unmarked};
ghost use Rattle.levels.specs.inner.Waves.{Queued, Pushed, Fronts, Carried};

use crate::searching::Searching;
use crate::senders::Senders;
use crate::shape::{BEGIN, ForwardEnd, MODEL_STATES, Wave};
use crate::sweep::sweep;
use bits::rising::members;
use steps::rows::union;

// Whether a final is in the set of a state in `fresh`.
fn final_any(front: &[u64], fresh: u64, finals: u64) -> bool
    requires { (s : ℕ) → T (bit fresh s) → s < length front.now }
    ensures { Says result (Over (In fresh) (λ s. ((q : ℕ) × T (bit (get_or front.now s 0) q) × T (bit finals q)))) }
{
    for s in members(fresh) {
        if front[s] & finals != 0 {
            return true;
        }
    }
    false
}

// Puts the sets of the states in `fresh` in place of those before: no others of a level are looked at, and most levels have few.
fn carry(after: &[u64], front: &mut [u64], fresh: u64)
    requires { (s : ℕ) → T (bit fresh s) → (s < length after.now) × (s < length front.old) }
    ensures { Carried (In fresh) after.now front.old front.new }
{
    for s in members(fresh) {
        front[s] = after[s];
    }
}

// The first level, on marks that are all 0: what table state 0 leads to in the initial states.
fn begin(search: &Searching, front: &mut [u64], marks: &mut [u16], queue: &mut [u16]) -> Wave
    requires { (model_states ≤ length front.old) × Workspace marks.old queue.old × Unmarked marks.old }
    ensures { (result.level ≡ 1) × (length front.new ≡ length front.old) × Pushed 0 marks.old marks.new queue.old queue.new (Below (Along (its_labels search.now) search.now.letters.now search.now.sizes.initial (λ q. 0 ≡ q)) search.now.sizes.states) 0 result.count × Fronts marks.new search.now.sizes.states 1 result.fresh front.new }
{
    let initial = [search.sizes.initial; 1];
    let held = [BEGIN; 1];
    let root = Senders {
        successors: &initial,
        front: &held,
        fresh: BEGIN,
    };
    let live = search.states_of(search.sizes.initial);
    sweep(
        search.letters,
        search.rows,
        search.sizes.states,
        &root,
        live,
        front,
        marks,
        queue,
        0,
        0,
    )
}

// The next level.
fn round(
    search: &Searching,
    front: &[u64],
    after: &mut [u64],
    marks: &mut [u16],
    queue: &mut [u16],
    wave: Wave,
) -> Wave
    requires { (model_states ≤ length front.now) × (model_states ≤ length after.old) × Workspace marks.old queue.old × (wave.level < pair_count) × Queued wave.level marks.old queue.old wave.count × Fronts marks.old search.now.sizes.states wave.level wave.fresh front.now }
    ensures { (result.level ≡ suc wave.level) × (length after.new ≡ length after.old) × Pushed wave.level marks.old marks.new queue.old queue.new (FromAll (its_labels search.now) search.now.letters.now search.now.sizes.states search.now.successors.now wave.level marks.old) wave.count result.count × Fronts marks.new search.now.sizes.states (suc wave.level) result.fresh after.new }
{
    let successors = search.successors;
    let fresh = wave.fresh;
    let from = Senders {
        successors,
        front,
        fresh,
    };
    let live = search.states_of(union(successors, 0, fresh));
    sweep(
        search.letters,
        search.rows,
        search.sizes.states,
        &from,
        live,
        after,
        marks,
        queue,
        wave.level,
        wave.count,
    )
}

// The pass, on marks that are all 0: to the first level that holds a final pair, or to the first that adds nothing.
pub fn forward(search: &Searching, marks: &mut [u16], queue: &mut [u16]) -> ForwardEnd
    requires { Workspace marks.old queue.old × Unmarked marks.old }
    ensures { Beyond (table_states * search.now.sizes.states) marks.old marks.new × Beyond pair_count queue.old queue.new × Ended (its_model search.now) (its_table search.now) result.found result.level result.count marks.new × Queued result.level marks.new queue.new result.count }
{
    let mut front = [0u64; MODEL_STATES];
    let mut after = [0u64; MODEL_STATES];
    let mut wave = begin(search, &mut front, marks, queue);
    let mut new = wave.count;
    while new != 0 {
        let count = wave.count;
        if final_any(&front, wave.fresh, search.sizes.finals) {
            return ForwardEnd {
                found: true,
                level: wave.level,
                count,
            };
        }
        wave = round(search, &front, &mut after, marks, queue, wave);
        carry(&after, &mut front, wave.fresh);
        new = wave.count - count;
    }
    ForwardEnd {
        found: false,
        level: wave.level,
        count: wave.count,
    }
}
