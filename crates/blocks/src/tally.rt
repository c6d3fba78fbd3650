// `[=i..j]`: a state for each count of letters that satisfied the formula, and one before the first letter.
ghost use Rattle.std.specs.Prelude.{ℕ, ◌+◌, ◌<◌, ◌≤◌, length};
ghost use Rattle.automata.specs.Table.{table_states, table_entries};
ghost use Rattle.automata.specs.inner.Cells.{Put, tallied};
ghost use Rattle.blocks.specs.inner.Building.{TallyOf};

use crate::link::unite_row;
use crate::span::Span;
use automata::cells::put;

// State p of those below hi: a letter that does not satisfy the formula keeps the count, one that does raises it, if there is a state for that.
fn tally_row(t: &mut [u64], p: usize, hi: usize, hit: u64, miss: u64)
    requires { (table_entries ≤ length t.old) × (p < hi) × (hi ≤ table_states) }
    ensures { (lo : ℕ) → lo ≤ p → Put t.old t.new p (p + 1) lo hi (tallied t.old hit miss) }
{
    put(t, p, p, miss);
    if p + 1 < hi {
        put(t, p, p + 1, hit);
    }
}

// The states lo to hi, for the counts from none on.
fn tally_rows(t: &mut [u64], lo: usize, hi: usize, hit: u64, miss: u64)
    requires { (table_entries ≤ length t.old) × (lo ≤ hi) × (hi ≤ table_states) }
    ensures { Put t.old t.new lo hi lo hi (tallied t.old hit miss) }
{
    for p in lo..hi {
        tally_row(t, p, hi, hit, miss);
    }
}

// Up to `high` letters are counted that satisfy the formula of this label. Before the first letter the count is none, too.
pub fn tally(t: &mut [u64], base: usize, high: usize, label: u64)
    requires { (table_entries ≤ length t.old) × (base + (high + 2) ≤ table_states) }
    ensures { TallyOf label high t.old t.new base }
{
    let first = base + 1;
    let hi = first + high + 1;
    tally_rows(t, first, hi, label, !label);
    unite_row(t, base, Span { first, end: hi });
}
