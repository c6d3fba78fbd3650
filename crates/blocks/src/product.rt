// `&&` over two blocks: the pairs of their states, in the blocks' place.
ghost use Rattle.std.specs.Prelude.{◌+◌, ◌*◌, ◌<◌, ◌≤◌, length};
ghost use Rattle.definitions.specs.declared.kinds.Pair.TheVariants.{Both};
ghost use Rattle.automata.specs.Table.{table_states, table_entries};
ghost use Rattle.automata.specs.inner.Cells.{Put, moved, paired};
ghost use Rattle.blocks.specs.inner.Building.{Room, Joins};

use crate::pairs::Pairs;
use automata::STATES;
use automata::cells::{get, place, put};
use automata::shape::Shape;

// The operands are copied before their pairs take their place. Two operands whose pairs are 64 at most have 34 states at most, if each has two: the copy is
// a table of so many rows.
const COPIED_STATES: usize = 34;

pub const COPY_ENTRIES: usize = STATES * COPIED_STATES;

// Row i of the block of n states at from in t becomes row i of the block at to in copy.
fn copy_row(copy: &mut [u64], t: &[u64], from: usize, to: usize, n: usize, i: usize)
    requires { (table_states * (to + n) ≤ length copy.old) × (table_states * (from + n) ≤ length t.now) × (to + n ≤ table_states) × (from + n ≤ table_states) × (i < n) }
    ensures { Put copy.old copy.new (to + i) (to + i + 1) to (to + n) (moved t.now from to) }
{
    let at = place(to + i, to);
    let old = place(from + i, from);
    copy[at..at + n].copy_from_slice(&t[old..old + n]);
}

// The block of n states at from in t, as it stands at to in copy.
pub fn copy_block(copy: &mut [u64], t: &[u64], from: usize, to: usize, n: usize)
    requires { (table_states * (to + n) ≤ length copy.old) × (table_states * (from + n) ≤ length t.now) × (to + n ≤ table_states) × (from + n ≤ table_states) }
    ensures { Put copy.old copy.new to (to + n) to (to + n) (moved t.now from to) }
{
    for i in 0..n {
        copy_row(copy, t, from, to, n, i);
    }
}

// Row p of the pairs whose first state is j: the label from p's first state to j, met with the row of its second.
fn product_part(t: &mut [u64], copy: &[u64], s: Pairs, p: usize, j: usize)
    requires { (table_entries ≤ length t.old) × (table_states * (s.second + s.n) ≤ length copy.now) × (s.base ≤ p) × (p < s.base + s.m * s.n) × (j < s.m) }
    ensures { Put t.old t.new p (p + 1) (s.base + j * s.n) (s.base + j * s.n + s.n) (paired copy.now s.base s.n s.second) }
{
    let n = s.n;
    let second = s.second;
    let i = p - s.base;
    let by = get(copy, i / n, j);
    let row = second + i % n;
    let lo = s.base + j * n;
    for k in 0..n {
        let v = by & get(copy, row, second + k);
        put(t, p, lo + k, v);
    }
}

// Row p of the pairs.
fn product_row(t: &mut [u64], copy: &[u64], s: Pairs, p: usize)
    requires { (table_entries ≤ length t.old) × (table_states * (s.second + s.n) ≤ length copy.now) × (s.base ≤ p) × (p < s.base + s.m * s.n) }
    ensures { Put t.old t.new p (p + 1) s.base (s.base + s.m * s.n) (paired copy.now s.base s.n s.second) }
{
    for j in 0..s.m {
        product_part(t, copy, s, p, j);
    }
}

// All rows of the pairs.
pub fn product(t: &mut [u64], copy: &[u64], s: Pairs)
    requires { (table_entries ≤ length t.old) × (table_states * (s.second + s.n) ≤ length copy.now) }
    ensures { Put t.old t.new s.base (s.base + s.m * s.n) s.base (s.base + s.m * s.n) (paired copy.now s.base s.n s.second) }
{
    let hi = s.base + s.m * s.n;
    for p in s.base..hi {
        product_row(t, copy, s, p);
    }
}

// `&&`
pub fn both(t: &mut [u64], base: usize, a: Shape, b: Shape)
    requires { Room Both a b t.old base }
    ensures { Joins Both a b t.old t.new base }
{
    let m = a.weight;
    let n = b.weight;
    let mut copy = [0u64; COPY_ENTRIES];
    copy_block(&mut copy, t, base, 0, m + n);
    let pairs = Pairs {
        base,
        m,
        n,
        second: m,
    };
    product(t, &copy, pairs);
}
