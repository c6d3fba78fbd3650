// `|` over two blocks behind a new first state.
ghost use Rattle.std.specs.Prelude.{◌+◌, ◌<◌, ◌≤◌, length};
ghost use Rattle.definitions.specs.declared.kinds.Pair.TheVariants.{Either};
ghost use Rattle.automata.specs.Table.{table_entries};
ghost use Rattle.automata.specs.inner.Cells.{Put, chosen};
ghost use Rattle.blocks.specs.inner.Building.{Room, Joins};

use crate::link::unite_row;
use crate::span::Span;
use automata::shape::Shape;

// The new state at base gets what leaves the first states of the block at base + 1 and of b behind it.
pub fn choice(t: &mut [u64], base: usize, b: Span)
    requires { (table_entries ≤ length t.old) × (base + 1 < b.first) }
    ensures { Put t.old t.new base (base + 1) (base + 1) b.end (chosen t.old base b.first) }
{
    let a = Span {
        first: base + 1,
        end: b.first,
    };
    unite_row(t, base, a);
    unite_row(t, base, b);
}

// `|`
pub fn either(t: &mut [u64], base: usize, a: Shape, b: Shape)
    requires { Room Either a b t.old base }
    ensures { Joins Either a b t.old t.new base }
{
    let mid = base + 1 + a.weight;
    let second = Span {
        first: mid,
        end: mid + b.weight,
    };
    choice(t, base, second);
}
