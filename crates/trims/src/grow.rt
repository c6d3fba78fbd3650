// The states that labels lead to: a whole row, or column, for each state, and each state once.
ghost use Rattle.std.specs.Prelude.{◌<◌, ◌≤◌, length};
ghost use Rattle.bits.specs.Says.{Says};
ghost use Rattle.bits.specs.Sets.{Members};
ghost use Rattle.automata.specs.Table.{table_states, table_entries};
ghost use Rattle.trims.specs.Stands.{Stands};
ghost use Rattle.trims.specs.Kept.{KeptSet};
ghost use Rattle.trims.specs.inner.Grown.{Beside, Grown};

use automata::cells::get;
use bits::those::those;

// Whether a label leads from p to q; backwards, from q to p.
fn is_beside(table: &[u64], back: bool, p: usize, q: usize) -> bool
    requires { (table_entries ≤ length table.now) × (p < table_states) × (q < table_states) }
    ensures { Says result (Beside table.now back p q) }
{
    let (from, to) = if back { (q, p) } else { (p, q) };
    get(table, from, to) != 0
}

// The states beside p, of n.
fn side_of(table: &[u64], n: usize, back: bool, p: usize) -> u64
    requires { (table_entries ≤ length table.now) × (n ≤ table_states) × (p < table_states) }
    ensures { Members result (λ q. (q < n) × Beside table.now back p q) }
{
    those(n, |q| is_beside(table, back, p, q))
}

// The states that labels lead to from the set, its own among them. Each turn takes one state off the rest, for good: at most 64 turns.
fn grow(table: &[u64], n: usize, back: bool, start: u64) -> u64
    requires { (table_entries ≤ length table.now) × (n ≤ table_states) }
    ensures { Members result (Grown table.now n back start) }
{
    let mut set = start;
    let mut rest = start;
    while rest != 0 {
        let p = bits::lowest(rest);
        let side = side_of(table, n, back, p);
        rest = bits::without(rest, p) | (side & !set);
        set |= side;
    }
    set
}

// The states that stay: forwards from 0 and backwards from the finals, and 0.
pub fn kept(table: &[u64], n: usize, finals: u64) -> u64
    requires { (table_entries ≤ length table.now) × Stands table.now n finals }
    ensures { KeptSet table.now n finals result }
{
    let reached = grow(table, n, false, 1);
    let ending = grow(table, n, true, finals);
    bits::with(reached & ending, 0)
}
