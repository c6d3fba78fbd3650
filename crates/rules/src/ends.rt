// Reading in prefix order: the place after the formula or the rule that begins at a place, or its first fault.
ghost use Rattle.rules.specs.Places.{GoodFormula, GoodRule, FormulaEnds, RuleEnds};
ghost use Rattle.rules.specs.Walks.{BodyRead, CountsRead, FormulaRead, RuleRead};

use definitions::Refusal;
use definitions::counts::counts_fit;
use definitions::kinds::{FormulaKind, Kind, RuleKind, kind_of};

const LAST_PROPOSITION: u8 = 5;

// The body of a proposition: its number.
fn body_end(rule: &[u8], at: usize) -> Result<usize, Refusal>
    ensures { BodyRead rule.now at result }
{
    if rule.len() <= at {
        return Err(Refusal::Ended(at));
    }
    if rule[at] <= LAST_PROPOSITION {
        Ok(at + 1)
    } else {
        Err(Refusal::NoProposition(at))
    }
}

// Two counts: the first is at most the second, and that at most the largest. Both are there before either is looked at.
fn counts_end(rule: &[u8], at: usize) -> Result<usize, Refusal>
    ensures { CountsRead rule.now at result }
{
    if rule.len() <= at {
        return Err(Refusal::Ended(at));
    }
    let second = at + 1;
    if rule.len() <= second {
        return Err(Refusal::Ended(second));
    }
    if counts_fit(rule[at], rule[second]) {
        Ok(at + 2)
    } else {
        Err(Refusal::BadCounts(at))
    }
}

// Reads a formula at `at`. What a call comes to is returned at once where it is handed on: the value of a `match` is copied, and that at each level.
pub fn formula_end(rule: &[u8], at: usize) -> Result<usize, Refusal>
    ensures { FormulaRead rule.now at result }
{
    if rule.len() <= at {
        return Err(Refusal::Ended(at));
    }
    match kind_of(rule[at]) {
        Kind::Unknown => Err(Refusal::UnknownKind(at)),
        Kind::OfRule(_) => Err(Refusal::WrongSort(at)),
        Kind::OfFormula(k) => match k {
            FormulaKind::Proposition => return body_end(rule, at + 1),
            FormulaKind::Truth | FormulaKind::Falsity => Ok(at + 1),
            FormulaKind::Not => return formula_end(rule, at + 1),
            FormulaKind::Join(_) => {
                let second = formula_end(rule, at + 1)?;
                return formula_end(rule, second);
            }
        },
    }
}

// Reads a rule at `at`.
pub fn rule_end(rule: &[u8], at: usize) -> Result<usize, Refusal>
    ensures { RuleRead rule.now at result }
{
    if rule.len() <= at {
        return Err(Refusal::Ended(at));
    }
    match kind_of(rule[at]) {
        Kind::Unknown => Err(Refusal::UnknownKind(at)),
        Kind::OfFormula(_) => Err(Refusal::WrongSort(at)),
        Kind::OfRule(k) => match k {
            RuleKind::Letter => return formula_end(rule, at + 1),
            RuleKind::Empty => Ok(at + 1),
            RuleKind::Again(_) => return rule_end(rule, at + 1),
            RuleKind::Two(_) => {
                let second = rule_end(rule, at + 1)?;
                return rule_end(rule, second);
            }
            RuleKind::Counted => {
                let operand = counts_end(rule, at + 1)?;
                return rule_end(rule, operand);
            }
            RuleKind::Occurs => {
                let operand = counts_end(rule, at + 1)?;
                return formula_end(rule, operand);
            }
        },
    }
}

// The place after the formula that stands at `at`.
pub fn formula_past(rule: &[u8], at: usize) -> usize
    requires { GoodFormula rule.now at }
    ensures { FormulaEnds rule.now at result }
{
    formula_end(rule, at).unwrap_or(0)
}

// The place after the rule that stands at `at`.
pub fn rule_past(rule: &[u8], at: usize) -> usize
    requires { GoodRule rule.now at }
    ensures { RuleEnds rule.now at result }
{
    rule_end(rule, at).unwrap_or(0)
}
