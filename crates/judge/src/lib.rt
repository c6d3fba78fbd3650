// The plain judge: whether a rule accepts a sequence of letters, found as Definition 2 reads. It builds no table of the rule.
#![tactic(auto)]

ghost use Rattle.std.specs.Prelude.{◌≡◌};
ghost use Rattle.judge.specs.declared.Refusal.TheVariants.{OfRule};
ghost use Rattle.judge.specs.Refusals.{number, place};
ghost use Rattle.judge.specs.Verdict.{told, JudgeRight};

use definitions::numbers::{BAD_LETTER, TOO_MANY_LETTERS};
use rules::Known;

mod cuts; // what each operator asks of one part of the letters
mod parts; // the answers for all parts at once
mod walk; // from a rule's bytes to its answers
mod letters; // the letters themselves

use cuts::LETTER_LIMIT;

// Why nothing is judged.
#[derive(Clone, Copy, Debug, PartialEq, Eq)]
pub enum Refusal {
    // the rule's own
    OfRule(definitions::Refusal),
    // there are more than 16
    TooManyLetters,
    // the letter at this place is none
    BadLetter(usize),
}

impl Refusal {
    // The refusal's number.
    pub fn number(self) -> u64
        ensures { result ≡ number self }
    {
        match self {
            Refusal::OfRule(x) => x.number(),
            Refusal::TooManyLetters => TOO_MANY_LETTERS,
            Refusal::BadLetter(_) => BAD_LETTER,
        }
    }

    // The byte of the rule, or the letter, that it is about.
    pub fn place(self) -> usize
        ensures { result ≡ place self }
    {
        match self {
            Refusal::OfRule(x) => x.place(),
            Refusal::TooManyLetters => 0,
            Refusal::BadLetter(i) => i,
        }
    }
}

impl From<definitions::Refusal> for Refusal {
    ghost from_gives = { λ x r. r ≡ OfRule x };

    fn from(refusal: definitions::Refusal) -> Refusal {
        Refusal::OfRule(refusal)
    }
}

// Whether the letters are accepted, beside what is known of the rule.
#[derive(Clone, Copy, Debug, PartialEq, Eq)]
pub struct Judged {
    pub accepts: bool,
    pub rule: Known,
}

// Judges the letters by the rule: any two strings of bytes have one answer.
pub fn judge(rule: &[u8], letters: &[u8]) -> Result<Judged, Refusal>
    ensures { JudgeRight rule.now letters.now (told result) }
{
    let known = rules::read_rule(rule)?;
    if LETTER_LIMIT < letters.len() {
        return Err(Refusal::TooManyLetters);
    }
    match letters::scan(letters) {
        Some(i) => Err(Refusal::BadLetter(i)),
        None => Ok(Judged {
            accepts: walk::accepts(rule, letters),
            rule: known,
        }),
    }
}
