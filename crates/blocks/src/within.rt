// `&`, which is {a && {b;true[*]}} | {{a;true[*]} && b}.
ghost use Rattle.std.specs.Prelude.{ℕ, ◌+◌, ◌*◌, ◌≤◌, length};
ghost use Rattle.definitions.specs.Definition1.{Rule, two};
ghost use Rattle.definitions.specs.declared.kinds.Pair.TheVariants.{Then, Within};
ghost use Rattle.automata.specs.inner.Block.{Block, Built, any_rule};
ghost use Rattle.automata.specs.inner.Cells.{Clean};
ghost use Rattle.automata.specs.inner.Shapes.{ShapeOf};
ghost use Rattle.blocks.specs.inner.Building.{Room, Joins};
ghost use Rattle.automata.specs.Table.{table_states};

use crate::any::pad;
use crate::choice::choice;
use crate::pairs::Pairs;
use crate::product::{COPY_ENTRIES, copy_block, product};
use crate::span::Span;
use automata::finals::raise;
use automata::shape::Shape;

// The block at from in t is copied to `to`, with `true[*]` behind it: {a;true[*]}.
fn copy_padded(copy: &mut [u64], t: &[u64], from: usize, to: usize, a: Shape)
    requires { (table_states * (to + a.weight + 2) ≤ length copy.old) × (table_states * (from + a.weight) ≤ length t.now) × (to + a.weight + 2 ≤ table_states) × (from + a.weight ≤ table_states) }
    ensures { (x : Rule) (e : ℕ) → Clean copy.old to → ShapeOf x e a → Block t.now from x → Built copy.old copy.new to (two Then x any_rule) }
{
    let n = a.weight;
    copy_block(copy, t, from, to, n);
    let finals = raise(a.finals, to);
    pad(copy, to, n, finals);
}

// Both sides of `&` are pairs over one copy of {a;true[*]} and {b;true[*]}: the left leaves a's `true[*]` out, and the right b's.
pub fn within(t: &mut [u64], base: usize, a: Shape, b: Shape)
    requires { Room Within a b t.old base }
    ensures { Joins Within a b t.old t.new base }
{
    let m = a.weight;
    let n = b.weight;
    let left = base + 1;
    let second = m + 2;
    let padded = n + 2;
    let right = left + m * padded;
    let left_pairs = Pairs {
        base: left,
        m,
        n: padded,
        second,
    };
    let right_pairs = Pairs {
        base: right,
        m: second,
        n,
        second,
    };
    let mut copy = [0u64; COPY_ENTRIES];
    copy_padded(&mut copy, t, left, 0, a);
    copy_padded(&mut copy, t, left + m, second, b);
    product(t, &copy, left_pairs);
    product(t, &copy, right_pairs);
    let right_block = Span {
        first: right,
        end: right + second * n,
    };
    choice(t, base, right_block);
}
