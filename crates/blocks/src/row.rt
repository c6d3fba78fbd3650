// `[*i..j]` over the block of one part: the block stands once more behind itself for each further part, and is reached as in `;`.
ghost use Rattle.std.specs.Prelude.{◌+◌, ◌*◌, ◌<◌, ◌≤◌, length};
ghost use Rattle.automata.specs.Table.{table_states, table_entries};
ghost use Rattle.automata.specs.inner.Cells.{Put, moved};
ghost use Rattle.blocks.specs.inner.Building.{RowOf};
ghost use Rattle.automata.specs.inner.Shapes.{RowRoom};

use crate::link::then;
use automata::cells::place;
use automata::shape::{Shape, row_shape};
use definitions::counts::{Counts, after_one};

// Row i of the block of n states at from becomes row i of the block behind it.
fn double_row(t: &mut [u64], from: usize, n: usize, i: usize)
    requires { (table_entries ≤ length t.old) × (from + n + n ≤ table_states) × (i < n) }
    ensures { Put t.old t.new (from + n + i) (from + n + i + 1) (from + n) (from + n + n) (moved t.old from (from + n)) }
{
    let to = from + n;
    let old = place(from + i, from);
    t.copy_within(old..old + n, place(to + i, to));
}

// The block of n states at from stands once more behind itself.
fn double(t: &mut [u64], from: usize, n: usize)
    requires { (table_entries ≤ length t.old) × (from + n + n ≤ table_states) }
    ensures { Put t.old t.new (from + n) (from + n + n) (from + n) (from + n + n) (moved t.old from (from + n)) }
{
    for i in 0..n {
        double_row(t, from, n, i);
    }
}

// `[*i..j]`, from the last part to the first.
pub fn row(t: &mut [u64], base: usize, a: Shape, c: Counts)
    requires { (table_entries ≤ length t.old) × RowRoom a c base }
    ensures { RowOf a c t.old t.new base }
{
    if 1 < c.high {
        let after = after_one(c);
        double(t, base, a.weight);
        row(t, base + a.weight, a, after);
        let rest = row_shape(a, after);
        then(t, base, a, rest);
    }
}
