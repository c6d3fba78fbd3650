// Marks of pairs, a row of 64 for each model state, and the queue of the marked pairs.
ghost use Rattle.std.specs.Prelude.{◌≡◌, ℕ, suc, ◌+◌, ◌*◌, ◌<◌, ◌≤◌, T, length, get_or};
ghost use Rattle.bits.specs.Word.{bit};
ghost use Rattle.bits.specs.Sets.{Members, Over, In};
ghost use Rattle.models.specs.Model.{model_states};
ghost use Rattle.levels.specs.Lent.{Cleared, pair_count};
ghost use Rattle.levels.specs.inner.Passes.{view, Workspace, pair_at};
ghost use Rattle.levels.specs.inner.Waves.{Queued, Pushed};

use automata::STATES;
use bits::rising::members;

// Sets the first n marks to 0.
pub fn clear(marks: &mut [u16], n: usize)
    requires { n ≤ length marks.old }
    ensures { Cleared n marks.old marks.new }
{
    marks[..n].fill(0);
}

// Of the set those q whose pair (t, q) has the mark.
pub fn filter(marks: &[u16], set: u64, t: usize, mark: u16) -> u64
    requires { (pair_count ≤ length marks.now) × (t < model_states) }
    ensures { Members result (λ q. T (bit set q) × (view marks.now t q ≡ mark)) }
{
    let mut out: u64 = 0;
    for q in members(set) {
        let there = marks[STATES * t + q];
        out = bits::with_if(out, q, there == mark);
    }
    out
}

// Marks one place that has no mark, and lists it.
fn push(marks: &mut [u16], queue: &mut [u16], at: usize, level: u16, count: usize)
    requires { Workspace marks.old queue.old × (at < pair_count) × (level < pair_count) × (get_or marks.old at 0 ≡ 0) × Queued (suc level) marks.old queue.old count }
    ensures { Pushed level marks.old marks.new queue.old queue.new (λ i. i ≡ at) count (count + 1) }
{
    marks[at] = level + 1;
    queue[count] = at as u16;
}

// The same for the pairs of row t in the set; the new count.
pub fn push_all(
    marks: &mut [u16],
    queue: &mut [u16],
    set: u64,
    t: usize,
    level: u16,
    count: usize,
) -> usize
    requires { Workspace marks.old queue.old × (t < model_states) × (level < pair_count) × ((q : ℕ) → T (bit set q) → view marks.old t q ≡ 0) × Queued (suc level) marks.old queue.old count }
    ensures { Pushed level marks.old marks.new queue.old queue.new (λ i. Over (In set) (λ q. i ≡ pair_at t q)) count result }
{
    let mut total = count;
    for q in members(set) {
        push(marks, queue, STATES * t + q, level, total);
        total += 1;
    }
    total
}
