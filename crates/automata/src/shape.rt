// The shape of a rule: all that its operator needs to know of it besides its labels.
ghost use Rattle.std.specs.Prelude.{ℕ, ◌≡◌, ◌<◌, ◌≤◌};
ghost use Rattle.bits.specs.Word.{insert};
ghost use Rattle.definitions.specs.Definition1.{Rule, Formula, two, again, counted, occurs};
ghost use Rattle.definitions.specs.Encoding.{CountsFit};
ghost use Rattle.rules.specs.Weight.{pair_weight, weight_limit};
ghost use Rattle.automata.specs.inner.Shapes.{Fits, ShapeOf, ShapedAs, MaybeShape};
ghost use Rattle.automata.specs.inner.Shapes.{RowRoom};

use crate::finals::{both_finals, either_finals, raise, then_finals, within_finals};
use definitions::counts::{Counts, after_one, counts_at};
use definitions::kinds::{Kind, Pair, Repeat, RuleKind, kind_of};
use rules::ends::{formula_past, rule_past};

// The empty sequence has one state, which is final; a letter has two, of which the second is.
const EMPTY_FINALS: u64 = 1;

pub const LETTER_FINALS: u64 = 2;

// Where a rule ends in the bytes, how many states its table has, and which of them are final.
#[derive(Clone, Copy, Debug, PartialEq, Eq)]
pub struct Shape {
    pub end: usize,
    pub weight: usize,
    pub finals: u64,
}

impl Shape {
    // The same with the first state final too.
    fn with_first_final(self) -> Shape
        ensures { (result.end ≡ self.end) × (result.weight ≡ self.weight) × (result.finals ≡ insert self.finals 0) }
    {
        Shape {
            finals: bits::with(self.finals, 0),
            ..self
        }
    }
}

// The shape of a repetition of a.
pub fn again_shape(p: Repeat, a: Shape) -> Shape
    ensures { (x : Rule) (e : ℕ) → ShapeOf x e a → ShapeOf (again p x) e result }
{
    match p {
        Repeat::Plus => a,
        Repeat::Star => a.with_first_final(),
    }
}

// The shape of an operator over a and b.
pub fn pair_shape(p: Pair, a: Shape, b: Shape) -> Shape
    requires { (0 < a.weight) × (0 < b.weight) × (pair_weight p a.weight b.weight ≤ weight_limit) }
    ensures { (x y : Rule) (d e : ℕ) → ShapeOf x d a → ShapeOf y e b → ShapeOf (two p x y) e result }
{
    let m = a.weight;
    let n = b.weight;
    let (weight, finals) = match p {
        Pair::Then => (m + n, then_finals(a.finals, b.finals, m)),
        Pair::Overlap => (m + n, raise(b.finals, m)),
        Pair::Either => (1 + m + n, either_finals(a.finals, b.finals, m)),
        Pair::Within => (
            2 * (m * n) + 2 * m + 2 * n + 1,
            within_finals(a.finals, b.finals, m, n),
        ),
        Pair::Both => (m * n, both_finals(a.finals, b.finals, n, m * n)),
    };
    Shape {
        end: b.end,
        weight,
        finals,
    }
}

// The shape of a, with the first state final too where no part is needed.
fn maybe(low: usize, a: Shape) -> Shape
    ensures { MaybeShape low a result }
{
    if low == 0 {
        return a.with_first_final();
    }
    a
}

// The shape of as many parts in a row as are counted, each of the shape a: one, and then those after it.
pub fn row_shape(a: Shape, c: Counts) -> Shape
    requires { RowRoom a c 0 }
    ensures { (x : Rule) (e : ℕ) → ShapeOf x e a → ShapeOf (counted c.low c.high x) e result }
{
    if c.high == 1 {
        return maybe(c.low, a);
    }
    let rest = row_shape(a, after_one(c));
    maybe(c.low, pair_shape(Pair::Then, a, rest))
}

// The shape of counted letters: a state for each count and one before the first letter; final are those of the counts that are asked for.
pub fn occurs_shape(c: Counts, end: usize) -> Shape
    requires { CountsFit c.low c.high }
    ensures { (f : Formula) → ShapeOf (occurs c.low c.high f) end result }
{
    let counts = bits::below(c.high - c.low + 1);
    let a = Shape {
        end,
        weight: c.high + 2,
        finals: raise(counts, c.low + 1),
    };
    maybe(c.low, a)
}

// The shape of the rule that stands at `at`.
pub fn shape_at(rule: &[u8], at: usize) -> Shape
    requires { Fits rule.now at 0 }
    ensures { ShapedAs rule.now at result }
{
    match kind_of(rule[at]) {
        Kind::Unknown | Kind::OfFormula(_) => Shape {
            end: at,
            weight: 0,
            finals: 0,
        },
        Kind::OfRule(k) => match k {
            RuleKind::Letter => Shape {
                end: formula_past(rule, at + 1),
                weight: 2,
                finals: LETTER_FINALS,
            },
            RuleKind::Empty => Shape {
                end: at + 1,
                weight: 1,
                finals: EMPTY_FINALS,
            },
            RuleKind::Again(p) => {
                let a = shape_at(rule, at + 1);
                again_shape(p, a)
            }
            RuleKind::Two(p) => {
                let a = shape_at(rule, at + 1);
                let second = a.end;
                let b = shape_at(rule, second);
                pair_shape(p, a, b)
            }
            RuleKind::Counted => {
                let c = counts_at(rule, at);
                if c.high == 0 {
                    return Shape {
                        end: rule_past(rule, at + 3),
                        weight: 1,
                        finals: EMPTY_FINALS,
                    };
                }
                let a = shape_at(rule, at + 3);
                row_shape(a, c)
            }
            RuleKind::Occurs => {
                let c = counts_at(rule, at);
                occurs_shape(c, formula_past(rule, at + 3))
            }
        },
    }
}
