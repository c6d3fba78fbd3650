// One level of the forward pass: row by row, what comes new is stored, marked and listed.
ghost use Rattle.std.specs.Prelude.{◌≡◌, ℕ, suc, ◌<◌, ◌≤◌, T, length};
ghost use Rattle.bits.specs.Word.{bit};
ghost use Rattle.bits.specs.Sets.{Members, Over, In};
ghost use Rattle.automata.specs.Table.{table_entries};
ghost use Rattle.models.specs.Model.{model_states};
ghost use Rattle.levels.specs.Lent.{pair_count, LentLetters};
ghost use Rattle.levels.specs.inner.Passes.{Workspace, HasLetter};
ghost use Rattle.levels.specs.inner.Waves.{Queued, Pushed, Incoming, Fronts, Lands};

use crate::marks::{filter, push_all};
use crate::searching::onto;
use crate::senders::Senders;
use crate::shape::Wave;
use bits::rising::members;

// The table states that come new to t.
fn incoming(letters: &[u8], rows: &[u64], from: &Senders, marks: &[u16], t: usize) -> u64
    requires { HasLetter letters.now t × (table_entries ≤ length rows.now) × (pair_count ≤ length marks.now) }
    ensures { Members result (Incoming rows.now letters.now from.now.successors.now from.now.front.now marks.now from.now.fresh t) }
{
    let handed = from.gather(t);
    let set = onto(letters, rows, handed, t);
    filter(marks, set, t, 0)
}

// The rows of the states in `live`, one after the other: the level after `level`, with `count` pairs listed before.
pub fn sweep(
    letters: &[u8],
    rows: &[u64],
    states: usize,
    from: &Senders,
    live: u64,
    after: &mut [u64],
    marks: &mut [u16],
    queue: &mut [u16],
    level: u16,
    count: usize,
) -> Wave
    requires { LentLetters letters.now states × (table_entries ≤ length rows.now) × (model_states ≤ length after.old) × Workspace marks.old queue.old × ((t : ℕ) → T (bit live t) → t < states) × (level < pair_count) × Queued level marks.old queue.old count }
    ensures { (result.level ≡ suc level) × (length after.new ≡ length after.old) × Pushed level marks.old marks.new queue.old queue.new (λ i. Over (In live) (λ t. Lands rows.now letters.now from.now.successors.now from.now.front.now from.now.fresh t i)) count result.count × Fronts marks.new states (suc level) result.fresh after.new }
{
    let mut next: u64 = 0;
    let mut total = count;
    for t in members(live) {
        let new = incoming(letters, rows, from, marks, t);
        after[t] = new;
        total = push_all(marks, queue, new, t, level, total);
        next = bits::with_if(next, t, new != 0);
    }
    Wave {
        level: level + 1,
        fresh: next,
        count: total,
    }
}
