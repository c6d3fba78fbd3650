// Takes the labels out of a square of the table.
ghost use Rattle.std.specs.Prelude.{◌+◌, ◌<◌, ◌≤◌, length};
ghost use Rattle.automata.specs.Table.{table_states, table_entries};
ghost use Rattle.automata.specs.inner.Cells.{Put};

use automata::cells::place;

// Row p has no label in the columns lo to hi.
fn clear_row(t: &mut [u64], p: usize, lo: usize, hi: usize)
    requires { (table_entries ≤ length t.old) × (p < table_states) × (lo ≤ hi) × (hi ≤ table_states) }
    ensures { Put t.old t.new p (p + 1) lo hi (λ r s. 0) }
{
    t[place(p, lo)..place(p, hi)].fill(0);
}

// The states lo to hi have no label among them.
pub fn clear(t: &mut [u64], lo: usize, hi: usize)
    requires { (table_entries ≤ length t.old) × (lo ≤ hi) × (hi ≤ table_states) }
    ensures { Put t.old t.new lo hi lo hi (λ r s. 0) }
{
    for p in lo..hi {
        clear_row(t, p, lo, hi);
    }
}
