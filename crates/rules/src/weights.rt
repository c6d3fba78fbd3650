// The weight of a rule that stands in the bytes, counted up to one above the limit: that much is enough to refuse it; and the
// propositions that it names.
ghost use Rattle.std.specs.Prelude.{◌≡◌, ◌≤◌, min};
ghost use Rattle.definitions.specs.Encoding.{largest_count};
ghost use Rattle.rules.specs.Places.{GoodRule};
ghost use Rattle.rules.specs.Weight.{pair_weight, row_weight, counted_to};
ghost use Rattle.rules.specs.Walks.{WeighedAs};

use crate::names::names_at;
use definitions::counts::counts_at;
use definitions::kinds::{Kind, Pair, RuleKind, kind_of};

const COUNTED_TO: usize = 65;

// A rule's weight, `COUNTED_TO` for any at or above it, the propositions that it names, and the place after the rule.
#[derive(Drop)]
pub struct Weighed {
    pub weight: usize,
    pub uses: u64,
    pub end: usize,
}

fn capped(weight: usize) -> usize
    ensures { result ≡ min counted_to weight }
{
    if weight < COUNTED_TO {
        weight
    } else {
        COUNTED_TO
    }
}

fn weight_of_pair(p: Pair, m: usize, n: usize) -> usize
    requires { (m ≤ counted_to) × (n ≤ counted_to) }
    ensures { result ≡ min counted_to (pair_weight p m n) }
{
    match p {
        Pair::Then => capped(m + n),
        Pair::Overlap => capped(m + n),
        Pair::Either => capped(1 + m + n),
        Pair::Within => capped(2 * (m * n) + 2 * m + 2 * n + 1),
        Pair::Both => capped(m * n),
    }
}

// Up to `count` parts in a row: none of the operand is built where none is asked for, whatever it weighs.
fn weight_of_row(count: usize, m: usize) -> usize
    requires { (count ≤ largest_count) × (m ≤ counted_to) }
    ensures { result ≡ min counted_to (row_weight count m) }
{
    if count == 0 { 1 } else { capped(count * m) }
}

// Weighs the rule that stands at `at` and finds what it names, in one walk.
pub fn weight_at(rule: &[u8], at: usize) -> Weighed
    requires { GoodRule rule.now at }
    ensures { WeighedAs rule.now at result }
{
    let Kind::OfRule(k) = kind_of(rule[at]) else {
        return Weighed {
            weight: 0,
            uses: 0,
            end: at,
        };
    };
    match k {
        RuleKind::Letter => {
            let f = names_at(rule, at + 1);
            Weighed {
                weight: 2,
                uses: f.uses,
                end: f.end,
            }
        }
        RuleKind::Empty => Weighed {
            weight: 1,
            uses: 0,
            end: at + 1,
        },
        RuleKind::Again(_) => weight_at(rule, at + 1),
        RuleKind::Two(p) => {
            let a = weight_at(rule, at + 1);
            let m = a.end;
            let b = weight_at(rule, m);
            Weighed {
                weight: weight_of_pair(p, a.weight, b.weight),
                uses: a.uses | b.uses,
                end: b.end,
            }
        }
        RuleKind::Counted => {
            let c = counts_at(rule, at);
            let a = weight_at(rule, at + 3);
            Weighed {
                weight: weight_of_row(c.high, a.weight),
                uses: a.uses,
                end: a.end,
            }
        }
        RuleKind::Occurs => {
            let c = counts_at(rule, at);
            let f = names_at(rule, at + 3);
            Weighed {
                weight: c.high + 2,
                uses: f.uses,
                end: f.end,
            }
        }
    }
}
