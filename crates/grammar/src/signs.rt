// What may follow a first operand: a junction of formulas; an operator of rules or a repetition; counts after a formula that stands as a rule.
ghost use Rattle.std.specs.Prelude.{◌≤◌, ◌≡◌, length, Ok};
ghost use Rattle.grammar.specs.inner.Wide.{head_bytes};
ghost use Rattle.grammar.specs.inner.Places.{At, JunctionAt, StarAt, BracketAt, OccurrenceAt, SignAt};

use crate::counts::counts_at;
use crate::words::{Fault, stands};
use definitions::kinds::{Junction, Pair, Repeat};

const LETTER: u8 = 0x10;

const COUNTED: u8 = 0x19;

const OCCURS: u8 = 0x1A;

// No byte of a rule.
pub const FILLER: u8 = 0xFF;

// What stands before an operand.
#[derive(Clone, Copy, Debug, PartialEq, Eq)]
pub enum Head {
    Letter,
    Two(Pair),
    Again(Repeat),
    Counted { low: u8, high: u8 },
    Occurs { low: u8, high: u8 },
}

impl Head {
    // Its kind byte, and its counts or fillers.
    pub fn bytes(self) -> [u8; 3]
        ensures { result ≡ head_bytes self }
    {
        match self {
            Head::Letter => [LETTER, FILLER, FILLER],
            Head::Two(p) => [p.byte(), FILLER, FILLER],
            Head::Again(p) => [p.byte(), FILLER, FILLER],
            Head::Counted { low, high } => [COUNTED, low, high],
            Head::Occurs { low, high } => [OCCURS, low, high],
        }
    }
}

// The head that what follows an operand asks for, and the place after that.
#[derive(Clone, Copy, Debug, PartialEq, Eq)]
pub struct Headed {
    pub head: Head,
    pub end: usize,
}

// An operator and the place of its second operand, or a repetition.
#[derive(Clone, Copy, Debug, PartialEq, Eq)]
pub enum Sign {
    Operator { pair: Pair, end: usize },
    Repetition(Headed),
}

// The junction at `at`.
pub fn junction_at(text: &[u8], at: usize) -> Option<Junction>
    ensures { JunctionAt text.now at result }
{
    if stands(text, at, b'&') {
        return Some(Junction::And);
    }
    if stands(text, at, b'|') {
        return Some(Junction::Or);
    }
    None
}

// What follows `[*`: the counts, or what closes it.
fn star_at(text: &[u8], at: usize) -> Result<Headed, Fault>
    ensures { StarAt text.now at result }
{
    if stands(text, at, b']') {
        return Ok(Headed {
            head: Head::Again(Repeat::Star),
            end: at + 1,
        });
    }
    let counts = counts_at(text, at)?;
    Ok(Headed {
        head: Head::Counted {
            low: counts.low,
            high: counts.high,
        },
        end: counts.end,
    })
}

// What follows the closing brace of a repetition.
fn bracket_at(text: &[u8], at: usize) -> Result<Headed, Fault>
    ensures { BracketAt text.now at result }
{
    if !stands(text, at, b'[') {
        return Err(Fault { place: at });
    }
    let sign = at + 1;
    if stands(text, sign, b'*') {
        return star_at(text, sign + 1);
    }
    if !stands(text, sign, b'+') {
        return Err(Fault { place: sign });
    }
    let close = sign + 1;
    if !stands(text, close, b']') {
        return Err(Fault { place: close });
    }
    Ok(Headed {
        head: Head::Again(Repeat::Plus),
        end: close + 1,
    })
}

// What follows a formula that stands as a rule: counts, or nothing.
pub fn occurrence_at(text: &[u8], at: usize) -> Result<Headed, Fault>
    requires { at ≤ length text.now }
    ensures { OccurrenceAt text.now at result }
{
    if !stands(text, at, b'[') {
        return Ok(Headed {
            head: Head::Letter,
            end: at,
        });
    }
    let sign = at + 1;
    if !stands(text, sign, b'=') {
        return Err(Fault { place: sign });
    }
    let counts = counts_at(text, sign + 1)?;
    Ok(Headed {
        head: Head::Occurs {
            low: counts.low,
            high: counts.high,
        },
        end: counts.end,
    })
}

// `&` or `&&`.
fn within_or_both(text: &[u8], at: usize) -> Sign
    requires { At text.now at 38 }
    ensures { SignAt text.now at (Ok result) }
{
    let end = at + 1;
    if stands(text, end, b'&') {
        return Sign::Operator {
            pair: Pair::Both,
            end: end + 1,
        };
    }
    Sign::Operator {
        pair: Pair::Within,
        end,
    }
}

// What follows the first operand of a brace.
pub fn sign_at(text: &[u8], at: usize) -> Result<Sign, Fault>
    ensures { SignAt text.now at result }
{
    if stands(text, at, b';') {
        return Ok(Sign::Operator {
            pair: Pair::Then,
            end: at + 1,
        });
    }
    if stands(text, at, b':') {
        return Ok(Sign::Operator {
            pair: Pair::Overlap,
            end: at + 1,
        });
    }
    if stands(text, at, b'|') {
        return Ok(Sign::Operator {
            pair: Pair::Either,
            end: at + 1,
        });
    }
    if stands(text, at, b'&') {
        return Ok(within_or_both(text, at));
    }
    if !stands(text, at, b'}') {
        return Err(Fault { place: at });
    }
    let repetition = bracket_at(text, at + 1)?;
    Ok(Sign::Repetition(repetition))
}
