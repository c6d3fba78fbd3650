// The pick: writes the first shortest match, state by state. The table states of the whole beginning are kept,
// so that the lowest state that can go on to a match is taken each time.
ghost use Rattle.std.specs.Prelude.{ℕ, ◌+◌, ◌<◌, ◌≤◌, T, length, take};
ghost use Rattle.bits.specs.Word.{bit};
ghost use Rattle.bits.specs.Sets.{Members};
ghost use Rattle.tables.specs.Beyond.{Beyond};
ghost use Rattle.levels.specs.Lent.{pair_count};
ghost use Rattle.levels.specs.inner.Through.{its_model, its_table};
ghost use Rattle.levels.specs.inner.Passes.{Pickable, Picked, useful_sets};
ghost use Rattle.passes.specs.inner.Uses.{Holds, flat};

use bits::rising::members;
use levels::marks::filter;
use levels::searching::Searching;
use levels::shape::{BEGIN, MODEL_STATES};

// The table states that are held after state t on the level: those that `held` leads to and that lie on a shortest match.
fn onward(search: &Searching, marks: &[u16], useful: &[u64], held: u64, t: usize, level: u16) -> u64
    requires { (t < search.now.sizes.states) × (pair_count ≤ length marks.now) × (useful_sets ≤ length useful.now) }
    ensures { Members result (Holds search.now.rows.now search.now.letters.now marks.now useful.now held level t) }
{
    let base = MODEL_STATES * (level as usize % 2);
    let set = search.onto(held, t) & useful[base + t];
    filter(marks, set, t, level)
}

// Of the states in `next` those that hold a table state.
fn choices(
    search: &Searching,
    marks: &[u16],
    useful: &[u64],
    held: u64,
    next: u64,
    level: u16,
) -> u64
    requires { ((t : ℕ) → T (bit next t) → t < search.now.sizes.states) × (pair_count ≤ length marks.now) × (useful_sets ≤ length useful.now) }
    ensures { Members result (λ t. T (bit next t) × ((p : ℕ) × Holds search.now.rows.now search.now.letters.now marks.now useful.now held level t p)) }
{
    let mut out: u64 = 0;
    for t in members(next) {
        let there = onward(search, marks, useful, held, t, level);
        out = bits::with_if(out, t, there != 0);
    }
    out
}

// Writes the run of `long` states.
pub fn pick(search: &Searching, marks: &[u16], useful: &[u64], run: &mut [u8], long: u16)
    requires { (pair_count ≤ length marks.now) × (useful_sets ≤ length useful.now) × (pair_count ≤ length run.old) × (long < pair_count) × Pickable (its_model search.now) (its_table search.now) long marks.now (flat marks.now useful.now) }
    ensures { Beyond long run.old run.new × Picked (its_model search.now) (its_table search.now) long (take long run.new) }
{
    let mut held = BEGIN;
    let mut next = search.sizes.initial;
    for level in 0..long {
        let these = search.states_of(next);
        let mask = choices(search, marks, useful, held, these, level + 1);
        let s = bits::lowest(mask);
        run[level as usize] = s as u8;
        held = onward(search, marks, useful, held, s, level + 1);
        next = search.successors[s];
    }
}
