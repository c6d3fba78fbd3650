// Moves the labels and the finals of the listed states to their new numbers.
ghost use Rattle.std.specs.Prelude.{◌≡◌, ◌+◌, ◌<◌, ◌≤◌, length};
ghost use Rattle.automata.specs.Table.{table_states, table_entries};
ghost use Rattle.automata.specs.inner.Cells.{Put};
ghost use Rattle.trims.specs.inner.Moves.{Rising, moved_label_of, moved_finals_of};

use automata::cells::{get, put};
use bits::those::those;

// The label from the new state i to the new state j, none outside the new states.
fn moved_label(table: &[u64], from: &[usize], i: usize, j: usize) -> u64
    requires { (table_entries ≤ length table.now) × Rising from.now }
    ensures { result ≡ moved_label_of table.now from.now i j }
{
    match (from.get(i), from.get(j)) {
        (Some(p), Some(q)) => get(table, *p, *q),
        _ => 0,
    }
}

// Row i becomes that of the new state i, in the n columns that have labels.
fn move_row(table: &mut [u64], from: &[usize], n: usize, i: usize)
    requires { (table_entries ≤ length table.old) × (n ≤ table_states) × Rising from.now × (i < table_states) }
    ensures { Put table.old table.new i (i + 1) 0 n (moved_label_of table.old from.now) }
{
    for j in 0..n {
        let v = moved_label(table, from, i, j);
        put(table, i, j, v);
    }
}

// The table of n states becomes that of the new ones. Rows and columns move up, and in rising order.
pub fn move_labels(table: &mut [u64], from: &[usize], n: usize)
    requires { (table_entries ≤ length table.old) × (n ≤ table_states) × Rising from.now }
    ensures { Put table.old table.new 0 n 0 n (moved_label_of table.old from.now) }
{
    for i in 0..n {
        move_row(table, from, n, i);
    }
}

// The finals among the new states.
pub fn moved_finals(from: &[usize], finals: u64) -> u64
    requires { (length from.now ≤ table_states) × Rising from.now }
    ensures { result ≡ moved_finals_of from.now finals }
{
    those(from.len(), |i| bits::has(finals, from[i]))
}
