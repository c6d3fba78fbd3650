// A formula that stands in the bytes: whether it holds in a letter, and its label.
#![tactic(auto)]

ghost use Rattle.std.specs.Prelude.{◌≡◌, ◌≤◌};
ghost use Rattle.definitions.specs.Definition2.{joined};
ghost use Rattle.rules.specs.Places.{GoodFormula};
ghost use Rattle.formulas.specs.Labels.{HoldsAs, LabelAs, LabelledAs, LabelsJoin, NotsTo, PropositionLabels, flipped};

use definitions::kinds::{FormulaKind, Junction, Kind, kind_of};

pub const LETTER_COUNT: usize = 64;

// The labels of the propositions: bit x of entry i is bit i of x.
const PROPOSITIONS: [u64; 6] = [
    0xAAAA_AAAA_AAAA_AAAA,
    0xCCCC_CCCC_CCCC_CCCC,
    0xF0F0_F0F0_F0F0_F0F0,
    0xFF00_FF00_FF00_FF00,
    0xFFFF_0000_FFFF_0000,
    0xFFFF_FFFF_0000_0000,
];

// The kind byte of `not`.
const NOT: u8 = 0x04;

// Whether a formula holds in the letter, and the place after the formula.
#[derive(Clone, Copy, Debug, PartialEq, Eq)]
pub struct Held {
    pub holds: bool,
    pub end: usize,
}

// A formula's label, and the place after the formula.
#[derive(Clone, Copy, Debug, PartialEq, Eq)]
pub struct Labelled {
    pub label: u64,
    pub end: usize,
}

fn join(j: Junction, a: bool, b: bool) -> bool
    ensures { result ≡ joined j a b }
{
    match j {
        Junction::And => a && b,
        Junction::Or => a || b,
    }
}

// The letters of both labels, or of either.
fn join_labels(j: Junction, a: u64, b: u64) -> u64
    ensures { LabelsJoin j a b result }
{
    match j {
        Junction::And => a & b,
        Junction::Or => a | b,
    }
}

// Evaluates the formula that stands at `at`.
pub fn holds_at(rule: &[u8], at: usize, letter: u8) -> Held
    requires { GoodFormula rule.now at }
    ensures { HoldsAs rule.now at letter result }
{
    let Kind::OfFormula(k) = kind_of(rule[at]) else {
        return Held {
            holds: false,
            end: at,
        };
    };
    match k {
        FormulaKind::Proposition => Held {
            holds: bits::has(letter as u64, rule[at + 1] as usize),
            end: at + 2,
        },
        FormulaKind::Truth => Held {
            holds: true,
            end: at + 1,
        },
        FormulaKind::Falsity => Held {
            holds: false,
            end: at + 1,
        },
        FormulaKind::Not => {
            let a = holds_at(rule, at + 1, letter);
            Held {
                holds: !a.holds,
                end: a.end,
            }
        }
        FormulaKind::Join(j) => {
            let a = holds_at(rule, at + 1, letter);
            let m = a.end;
            let b = holds_at(rule, m, letter);
            Held {
                holds: join(j, a.holds, b.holds),
                end: b.end,
            }
        }
    }
}

// The label under an odd or an even number of `not`s.
fn flip(odd: bool, label: u64) -> u64
    ensures { result ≡ flipped odd label }
{
    if odd { !label } else { label }
}

// Where the `not`s in a row end, and whether they are odd in number.
#[derive(Clone, Copy, Debug, PartialEq, Eq)]
pub struct Nots {
    pub end: usize,
    pub odd: bool,
}

// Goes past the `not`s that stand at `at`, in a loop: a call for each would cost more than what it does.
fn past_nots(rule: &[u8], at: usize) -> Nots
    requires { GoodFormula rule.now at }
    ensures { (at ≤ result.end) × NotsTo rule.now at result.end result.odd }
{
    let mut end = at;
    let mut odd = false;
    while rule[end] == NOT {
        end += 1;
        odd = !odd;
    }
    Nots { end, odd }
}

// The label of the formula that stands at `at`, and the place after the formula. The labels of the propositions are lent: what is
// made of them is the same whatever letters their bits are for.
fn labelled_at(rule: &[u8], at: usize, propositions: &[u64]) -> Labelled
    requires { GoodFormula rule.now at × PropositionLabels propositions.now }
    ensures { LabelledAs rule.now at result }
{
    let Kind::OfFormula(k) = kind_of(rule[at]) else {
        return Labelled { label: 0, end: at };
    };
    match k {
        FormulaKind::Proposition => {
            let body = at + 1;
            Labelled {
                label: propositions[rule[body] as usize],
                end: body + 1,
            }
        }
        FormulaKind::Truth => Labelled {
            label: !0,
            end: at + 1,
        },
        FormulaKind::Falsity => Labelled {
            label: 0,
            end: at + 1,
        },
        FormulaKind::Not => {
            let n = past_nots(rule, at + 1);
            let a = labelled_at(rule, n.end, propositions);
            Labelled {
                label: flip(!n.odd, a.label),
                end: a.end,
            }
        }
        FormulaKind::Join(j) => {
            let a = labelled_at(rule, at + 1, propositions);
            let m = a.end;
            let b = labelled_at(rule, m, propositions);
            Labelled {
                label: join_labels(j, a.label, b.label),
                end: b.end,
            }
        }
    }
}

// The label of the formula that stands at `at`, and the place after the formula.
pub fn label_and_end(rule: &[u8], at: usize) -> Labelled
    requires { GoodFormula rule.now at }
    ensures { LabelledAs rule.now at result }
{
    labelled_at(rule, at, &PROPOSITIONS)
}

// The label of the formula that stands at `at`.
pub fn label_at(rule: &[u8], at: usize) -> u64
    requires { GoodFormula rule.now at }
    ensures { LabelAs rule.now at result }
{
    let a = label_and_end(rule, at);
    a.label
}
