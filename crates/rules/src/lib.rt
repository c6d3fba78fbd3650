// Reads a rule in the house form: what is known of an accepted rule, or the first refusal with its place.
#![tactic(auto)]

ghost use Rattle.std.specs.Prelude.{◌≡◌};
ghost use Rattle.rules.specs.Answer.{told, answer};

pub mod ends; // where a formula or a rule that begins at a place ends, or its first fault
pub mod names; // which propositions a formula names
pub mod weights; // how many states a rule's table has, and which propositions the rule names

use definitions::Refusal;

// A rule of more bytes is refused unread.
const LONGEST_RULE: usize = 255;

const WEIGHT_LIMIT: usize = 64;

// What is known of an accepted rule: its weight, and the propositions that it names, bit i for proposition i.
#[derive(Clone, Copy, Debug, PartialEq, Eq)]
pub struct Known {
    pub weight: usize,
    pub uses: u64,
}

// Reads a whole rule: any string of bytes has one answer.
pub fn read_rule(rule: &[u8]) -> Result<Known, Refusal>
    ensures { told result ≡ answer rule.now }
{
    if LONGEST_RULE < rule.len() {
        return Err(Refusal::TooLong);
    }
    let end = ends::rule_end(rule, 0)?;
    if end < rule.len() {
        return Err(Refusal::Leftover(end));
    }
    let w = weights::weight_at(rule, 0);
    let weight = w.weight;
    if weight <= WEIGHT_LIMIT {
        Ok(Known {
            weight,
            uses: w.uses,
        })
    } else {
        Err(Refusal::TooHeavy)
    }
}
