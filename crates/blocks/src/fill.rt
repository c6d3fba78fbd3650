// Fills in a rule's labels: each rule its own square of the table, from a base on, and nothing else. There is no tree in memory: operands are found again
// in the bytes. The walk builds an operator's operands side by side; the operator itself works on their blocks and knows nothing of the walk.
ghost use Rattle.std.specs.Prelude.{◌≡◌, get_or};
ghost use Rattle.definitions.specs.declared.kinds.Kind.TheVariants.{OfRule};
ghost use Rattle.definitions.specs.declared.kinds.RuleKind.TheVariants.{Two};
ghost use Rattle.definitions.specs.Kinds.{kind_of};
ghost use Rattle.automata.specs.inner.Shapes.{Fits, ShapedAs};
ghost use Rattle.blocks.specs.inner.Building.{Ready, Room, Joins, PlacedAt, BuiltAt};

use crate::choice::either;
use crate::link::{again, then};
use crate::overlap::overlap;
use crate::product::both;
use crate::row::row;
use crate::tally::tally;
use crate::within::within;
use automata::cells::put;
use automata::shape::{
    LETTER_FINALS, Shape, again_shape, occurs_shape, pair_shape, row_shape, shape_at,
};
use definitions::counts::counts_at;
use definitions::kinds::{Kind, Pair, RuleKind, kind_of};
use formulas::label_and_end;

// Where an operator wants its operands' blocks, one behind the other: nowhere, if it has no label. `|` and `&` have a state of their own before the operands. A table of one state has no label, and neither has its product; otherwise the operands of `&&`
// fit side by side into the product's square. For `&&` alone the operands are weighed before they are built.
fn place_at(rule: &[u8], at: usize, p: Pair, base: usize) -> Option<usize>
    requires { Fits rule.now at base × (kind_of (get_or rule.now at 0) ≡ OfRule (Two p)) }
    ensures { PlacedAt rule.now at p base result }
{
    match p {
        Pair::Then | Pair::Overlap => Some(base),
        Pair::Either | Pair::Within => Some(base + 1),
        Pair::Both => {
            let a = shape_at(rule, at + 1);
            let second = a.end;
            let b = shape_at(rule, second);
            if a.weight < 2 || b.weight < 2 {
                return None;
            }
            Some(base)
        }
    }
}

// The operands' blocks become the operator's.
fn join(t: &mut [u64], base: usize, p: Pair, a: Shape, b: Shape)
    requires { Room p a b t.old base }
    ensures { Joins p a b t.old t.new base }
{
    match p {
        Pair::Then => then(t, base, a, b),
        Pair::Overlap => overlap(t, base, a, b),
        Pair::Either => either(t, base, a, b),
        Pair::Within => within(t, base, a, b),
        Pair::Both => both(t, base, a, b),
    }
}

// The labels of the rule that stands at `at`, from base on, where there are none yet; and its shape.
pub fn build_at(rule: &[u8], at: usize, t: &mut [u64], base: usize) -> Shape
    requires fits { Fits rule.now at base }
    requires ready { Ready t.old base }
    ensures built_at { BuiltAt rule.now at t.old t.new base }
    ensures shaped_as { ShapedAs rule.now at result }
{
    match kind_of(rule[at]) {
        Kind::Unknown | Kind::OfFormula(_) => shape_at(rule, at),
        Kind::OfRule(k) => match k {
            RuleKind::Letter => {
                let a = label_and_end(rule, at + 1);
                put(t, base, base + 1, a.label);
                Shape {
                    end: a.end,
                    weight: 2,
                    finals: LETTER_FINALS,
                }
            }
            RuleKind::Empty => shape_at(rule, at),
            RuleKind::Again(p) => {
                let a = build_at(rule, at + 1, t, base);
                again(t, base, a);
                again_shape(p, a)
            }
            RuleKind::Two(p) => {
                let Some(lo) = place_at(rule, at, p, base) else {
                    return shape_at(rule, at);
                };
                let a = build_at(rule, at + 1, t, lo);
                let second = a.end;
                let b = build_at(rule, second, t, lo + a.weight);
                join(t, base, p, a, b);
                pair_shape(p, a, b)
            }
            RuleKind::Counted => {
                let c = counts_at(rule, at);
                if c.high == 0 {
                    return shape_at(rule, at);
                }
                let a = build_at(rule, at + 3, t, base);
                row(t, base, a, c);
                row_shape(a, c)
            }
            RuleKind::Occurs => {
                let c = counts_at(rule, at);
                let f = label_and_end(rule, at + 3);
                tally(t, base, c.high, f.label);
                occurs_shape(c, f.end)
            }
        },
    }
}
