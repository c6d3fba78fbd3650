// One step through a table, for those who follow it.
ghost use Rattle.std.specs.Prelude.{◌≡◌, ◌<◌, ◌≤◌, length};
ghost use Rattle.bits.specs.Word.{bit};
ghost use Rattle.definitions.specs.Definition2.{letter_count};
ghost use Rattle.automata.specs.Table.{table_states, table_entries, cell};

use crate::cells::get;

// Whether letter x is in the label from p to q.
pub fn in_label(t: &[u64], p: usize, q: usize, x: usize) -> bool
    requires { (table_entries ≤ length t.now) × (p < table_states) × (q < table_states) × (x < letter_count) }
    ensures { result ≡ bit (cell t.now p q) x }
{
    bits::has(get(t, p, q), x)
}
