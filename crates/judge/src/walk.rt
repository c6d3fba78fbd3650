// Judging a rule that stands in the bytes. Each operand is judged once, for all parts of the letters: judged anew at each cut, nested repetitions would
// take exponential time.
ghost use Rattle.rules.specs.Places.{GoodRule};
ghost use Rattle.judge.specs.Parts.{Few};
ghost use Rattle.judge.specs.inner.Judging.{JudgedAt, RepeatedAt, AcceptsAs};

use crate::cuts::{Answers, SIDE, accepted};
use crate::parts::{
    empty_parts, letter_parts, occurs_parts, pair_parts, plus_parts, row_parts, star_parts,
};
use definitions::counts::counts_at;
use definitions::kinds::{Kind, Repeat, RuleKind, kind_of};
use rules::ends::rule_past;

// Judges the rule that stands at `at`.
#[cycle(judge_at_judge_repeat)]
fn judge_at(rule: &[u8], at: usize, letters: &[u8]) -> Answers
    requires { GoodRule rule.now at × Few letters.now }
    ensures { JudgedAt rule.now at letters.now result }
{
    let Kind::OfRule(kind) = kind_of(rule[at]) else {
        return [0u64; SIDE];
    };
    match kind {
        RuleKind::Letter => letter_parts(rule, at + 1, letters),
        RuleKind::Empty => empty_parts(),
        RuleKind::Again(p) => judge_repeat(p, rule, at + 1, letters),
        RuleKind::Two(p) => {
            let a = judge_at(rule, at + 1, letters);
            let second = rule_past(rule, at + 1);
            let b = judge_at(rule, second, letters);
            pair_parts(p, &a, &b)
        }
        RuleKind::Counted => {
            let c = counts_at(rule, at);
            if c.high == 0 {
                return empty_parts();
            }
            let once = judge_at(rule, at + 3, letters);
            row_parts(c, &once)
        }
        RuleKind::Occurs => {
            let c = counts_at(rule, at);
            let one = letter_parts(rule, at + 3, letters);
            occurs_parts(c, &one)
        }
    }
}

// Judges the repetition of the rule that stands at `at`.
#[cycle(judge_at_judge_repeat)]
fn judge_repeat(p: Repeat, rule: &[u8], at: usize, letters: &[u8]) -> Answers
    requires { GoodRule rule.now at × Few letters.now }
    ensures { RepeatedAt p rule.now at letters.now result }
{
    let once = judge_at(rule, at, letters);
    match p {
        Repeat::Star => star_parts(&once),
        Repeat::Plus => plus_parts(&once),
    }
}

// Whether the rule that the bytes begin with accepts the letters.
pub fn accepts(rule: &[u8], letters: &[u8]) -> bool
    requires { GoodRule rule.now 0 × Few letters.now }
    ensures { AcceptsAs rule.now letters.now result }
{
    let answers = judge_at(rule, 0, letters);
    accepted(&answers, 0, letters.len())
}
