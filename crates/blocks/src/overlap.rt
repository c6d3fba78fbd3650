// `:` over two blocks: where a goes to a final and b leaves its first state by the same letter, a's state goes on in b.
ghost use Rattle.std.specs.Prelude.{◌+◌, ◌-◌, ◌<◌, ◌≤◌, length};
ghost use Rattle.std.specs.Int.Bits.{bit_or, bit_and};
ghost use Rattle.automata.specs.Table.{table_states, table_entries, cell};
ghost use Rattle.definitions.specs.declared.kinds.Pair.TheVariants.{Overlap};
ghost use Rattle.automata.specs.inner.Cells.{Put, overlapped_by, overlapped};
ghost use Rattle.blocks.specs.inner.Building.{Room, Joins};

use crate::span::Span;
use automata::cells::{get, put};
use automata::finals::raise;
use automata::shape::Shape;

// Row p also gets what the label x lets through of what leaves the first state of b.
fn unite_part(t: &mut [u64], p: usize, x: u64, b: Span)
    requires { (table_entries ≤ length t.old) × (p < table_states) }
    ensures { Put t.old t.new p (p + 1) b.first b.end (λ r s. bit_or (cell t.old r s) (bit_and x (cell t.old b.first s))) }
{
    for q in b.first..b.end {
        let v = get(t, p, q) | x & get(t, b.first, q);
        put(t, p, q, v);
    }
}

// Row p goes on in b by way of f, if f is final.
fn overlap_by(t: &mut [u64], p: usize, f: usize, b: Span, finals: u64)
    requires { (table_entries ≤ length t.old) × (p < table_states) × (f < table_states) }
    ensures { Put t.old t.new p (p + 1) b.first b.end (overlapped_by t.old finals b.first f) }
{
    if bits::has(finals, f) {
        let x = get(t, p, f);
        unite_part(t, p, x, b);
    }
}

// Row p goes on in b by way of each final of a, whose states stand from a up to b.
fn overlap_row(t: &mut [u64], p: usize, a: usize, b: Span, finals: u64)
    requires { (table_entries ≤ length t.old) × (a ≤ p) × (p < b.first) }
    ensures { Put t.old t.new p (p + 1) b.first b.end (overlapped t.old finals a b.first (b.first - a)) }
{
    for f in a..b.first {
        overlap_by(t, p, f, b, finals);
    }
}

// Each row of a goes on in b by way of each final of a.
fn overlap_rows(t: &mut [u64], a: usize, b: Span, finals: u64)
    requires { (table_entries ≤ length t.old) × (a ≤ b.first) }
    ensures { Put t.old t.new a b.first b.first b.end (overlapped t.old finals a b.first (b.first - a)) }
{
    for p in a..b.first {
        overlap_row(t, p, a, b, finals);
    }
}

// `:`
pub fn overlap(t: &mut [u64], base: usize, a: Shape, b: Shape)
    requires { Room Overlap a b t.old base }
    ensures { Joins Overlap a b t.old t.new base }
{
    let mid = base + a.weight;
    let second = Span {
        first: mid,
        end: mid + b.weight,
    };
    let finals = raise(a.finals, base);
    overlap_rows(t, base, second, finals);
}
