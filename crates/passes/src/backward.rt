// The backward pass: of the listed pairs, from the last to the first, which lie on a shortest match.
// A level's pairs look for useful pairs on the level after it, and every pair that they lead to is on that level or before it.
// So the useful pairs are kept in two arrays of sets, by the parity of their level, and no level is told from another.
ghost use Rattle.std.specs.Prelude.{◌≡◌, ℕ, ◌+◌, ◌*◌, ◌/◌, ◌%◌, ◌<◌, ◌≤◌, T, length};
ghost use Rattle.bits.specs.Word.{bit};
ghost use Rattle.bits.specs.Says.{Says};
ghost use Rattle.bits.specs.Sets.{Over, In};
ghost use Rattle.automata.specs.Table.{table_states};
ghost use Rattle.models.specs.Model.{model_states};
ghost use Rattle.levels.specs.Lent.{pair_count};
ghost use Rattle.levels.specs.inner.Through.{its_model, its_table};
ghost use Rattle.levels.specs.inner.Passes.{view, Marked, Useful, useful_sets, NoSets};
ghost use Rattle.levels.specs.inner.Waves.{Queued};
ghost use Rattle.passes.specs.inner.Uses.{Meets, Keeps, Settles, flat};

use automata::STATES;
use bits::rising::members;
use levels::searching::Searching;
use levels::shape::{MODEL_STATES, Pair};

// Whether the letter of t leads from q to a member of the set of t.
fn meets(search: &Searching, useful: &[u64], base: usize, q: usize, t: usize) -> bool
    requires { (t < search.now.sizes.states) × (base ≤ model_states) × (useful_sets ≤ length useful.now) × (q < table_states) }
    ensures { Says result (Meets search.now.rows.now search.now.letters.now useful.now base q t) }
{
    let x = search.letters[t] as usize;
    useful[base + t] & search.rows[STATES * x + q] != 0
}

// Whether that of some state of the set does.
fn led(search: &Searching, useful: &[u64], next: u64, base: usize, q: usize) -> bool
    requires { ((t : ℕ) → T (bit next t) → t < search.now.sizes.states) × (base ≤ model_states) × (useful_sets ≤ length useful.now) × (q < table_states) }
    ensures { Says result (Over (In next) (Meets search.now.rows.now search.now.letters.now useful.now base q)) }
{
    for t in members(next) {
        if meets(search, useful, base, q, t) {
            return true;
        }
    }
    false
}

// Whether a marked pair is useful, where finals are on the last level.
fn keeps(search: &Searching, useful: &[u64], pair: Pair, last: u16) -> bool
    requires { (pair.state < search.now.sizes.states) × (useful_sets ≤ length useful.now) × (pair.in_table < table_states) }
    ensures { Says result (Keeps search.now.rows.now search.now.letters.now search.now.successors.now useful.now search.now.sizes.states search.now.sizes.finals last pair.mark pair.state pair.in_table) }
{
    let s = pair.state;
    let q = pair.in_table;
    if pair.mark == last {
        return bits::has(search.sizes.finals, q);
    }
    let next = search.states_of(search.successors[s]);
    let base = MODEL_STATES * ((pair.mark as usize + 1) % 2);
    led(search, useful, next, base, q)
}

// Settles the pair at a place.
fn settle(search: &Searching, marks: &[u16], useful: &mut [u64], at: usize, last: u16)
    requires { (at < pair_count) × (at / table_states < search.now.sizes.states) × (pair_count ≤ length marks.now) × (useful_sets ≤ length useful.old) }
    ensures { Settles search.now.rows.now search.now.letters.now search.now.successors.now marks.now useful.old useful.new search.now.sizes.states search.now.sizes.finals last at }
{
    let state = at / STATES;
    let in_table = at % STATES;
    let mark = marks[at];
    let pair = Pair {
        state,
        in_table,
        mark,
    };
    let yes = keeps(search, useful, pair, last);
    let place = MODEL_STATES * (mark as usize % 2) + state;
    useful[place] = bits::with_if(useful[place], in_table, yes);
}

// The pass over the listed pairs, with finals on the last level, on useful sets that are all empty.
pub fn backward(search: &Searching, marks: &[u16], listed: &[u16], useful: &mut [u64], last: u16)
    requires { (pair_count ≤ length marks.now) × (useful_sets ≤ length useful.old) × NoSets useful.old × Marked (its_model search.now) (its_table search.now) last (length listed.now) marks.now × Queued last marks.now listed.now (length listed.now) }
    ensures { (length useful.new ≡ length useful.old) × Useful (its_model search.now) (its_table search.now) last (view marks.now) 1 (view (flat marks.now useful.new)) }
{
    for i in (0..listed.len()).rev() {
        let at = listed[i] as usize;
        settle(search, marks, useful, at, last);
    }
}
