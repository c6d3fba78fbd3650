// `;` and the repetitions: each final state of a block also gets what leaves a block's first state.
ghost use Rattle.std.specs.Prelude.{◌+◌, ◌*◌, ◌<◌, ◌≤◌, length};
ghost use Rattle.std.specs.Int.Bits.{bit_or};
ghost use Rattle.automata.specs.Table.{table_states, table_entries, cell};
ghost use Rattle.definitions.specs.declared.kinds.Pair.TheVariants.{Then};
ghost use Rattle.automata.specs.inner.Cells.{Put, linked};
ghost use Rattle.blocks.specs.inner.Building.{Room, Joins, Repeats};

use crate::span::Span;
use automata::cells::{get, put};
use automata::finals::raise;
use automata::shape::Shape;

// Row p also gets what leaves the first state of b.
pub fn unite_row(t: &mut [u64], p: usize, b: Span)
    requires { (table_states * (p + 1) ≤ length t.old) × (table_states * b.end ≤ length t.old) × (p < table_states) }
    ensures { Put t.old t.new p (p + 1) b.first b.end (λ r s. bit_or (cell t.old r s) (cell t.old b.first s)) }
{
    for q in b.first..b.end {
        let v = get(t, p, q) | get(t, b.first, q);
        put(t, p, q, v);
    }
}

// Row p also gets what leaves the first state of b, if p is final.
fn link_row(t: &mut [u64], p: usize, b: Span, finals: u64)
    requires { (table_states * (p + 1) ≤ length t.old) × (table_states * b.end ≤ length t.old) × (p < table_states) }
    ensures { Put t.old t.new p (p + 1) b.first b.end (linked t.old b.first finals) }
{
    if bits::has(finals, p) {
        unite_row(t, p, b);
    }
}

// Each final row of from to to also gets what leaves the first state of b.
pub fn link(t: &mut [u64], from: usize, to: usize, b: Span, finals: u64)
    requires { (table_states * to ≤ length t.old) × (table_states * b.end ≤ length t.old) × (from ≤ to) × (to ≤ table_states) }
    ensures { Put t.old t.new from to b.first b.end (linked t.old b.first finals) }
{
    for p in from..to {
        link_row(t, p, b, finals);
    }
}

// `;`: a's finals also get what leaves b.
pub fn then(t: &mut [u64], base: usize, a: Shape, b: Shape)
    requires { Room Then a b t.old base }
    ensures { Joins Then a b t.old t.new base }
{
    let mid = base + a.weight;
    let second = Span {
        first: mid,
        end: mid + b.weight,
    };
    let finals = raise(a.finals, base);
    link(t, base, mid, second, finals);
}

// `[*]` and `[+]`, which have the same labels: a's finals also get what leaves a. The first state has that already, and no row that is written is
// then the one that is read.
pub fn again(t: &mut [u64], base: usize, a: Shape)
    requires { (table_entries ≤ length t.old) × (0 < a.weight) × (base + a.weight ≤ table_states) }
    ensures { Repeats a t.old t.new base }
{
    let own = Span {
        first: base,
        end: base + a.weight,
    };
    let finals = raise(a.finals, base);
    link(t, base + 1, own.end, own, finals);
}
