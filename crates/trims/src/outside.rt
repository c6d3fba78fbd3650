// Refusal 24: a weight that is none, a final or a label outside it.
ghost use Rattle.std.specs.Prelude.{◌<◌, ◌≤◌, length};
ghost use Rattle.bits.specs.Says.{Says};
ghost use Rattle.automata.specs.Table.{table_states, table_entries};
ghost use Rattle.trims.specs.inner.Outside.{StrayLabel, StrayRow, StrayRows, StrayFinal, Judged};

use automata::STATES;
use automata::cells::get;

// Whether a label from p to q lies outside n states.
fn stray_label(table: &[u64], n: usize, p: usize, q: usize) -> bool
    requires { (table_entries ≤ length table.now) × (p < table_states) × (q < table_states) }
    ensures { Says result (StrayLabel table.now n p q) }
{
    (n <= p || n <= q) && get(table, p, q) != 0
}

// Whether row p has such a label.
fn stray_row(table: &[u64], n: usize, p: usize) -> bool
    requires { (table_entries ≤ length table.now) × (p < table_states) }
    ensures { Says result (StrayRow table.now n p) }
{
    (0..STATES).any(|q| stray_label(table, n, p, q))
}

// Whether any row has.
fn stray_rows(table: &[u64], n: usize) -> bool
    requires { table_entries ≤ length table.now }
    ensures { Says result (StrayRows table.now n) }
{
    (0..STATES).any(|p| stray_row(table, n, p))
}

// Whether a final lies outside n states.
fn stray_final(n: usize, finals: u64) -> bool
    requires { n ≤ table_states }
    ensures { Says result (StrayFinal n finals) }
{
    finals & !bits::below(n) != 0
}

// Whether the table can be trimmed.
pub fn stands(table: &[u64], n: usize, finals: u64) -> bool
    requires { table_entries ≤ length table.now }
    ensures { Judged table.now n finals result }
{
    if !(1..=STATES).contains(&n) {
        return false;
    }
    !stray_final(n, finals) && !stray_rows(table, n)
}
