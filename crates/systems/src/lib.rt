// Reads a transition system in the house form, two formulas: 30 and one for the initial states, 31 and one for the step.
#![tactic(auto)]

ghost use Rattle.std.specs.Prelude.{◌≡◌};
ghost use Rattle.systems.specs.Refusals.{number, place};
ghost use Rattle.systems.specs.Answer.{told, answer};

pub mod kinds; // what a kind byte says here
mod ends; // where a mark or a formula that begins at a place ends, or its first fault

use ends::{formula_end, step_start};

// A system of more bytes is refused unread.
const LONGEST_SYSTEM: usize = 255;

// Why a system is refused, and at which place of its bytes.
#[derive(Clone, Copy, Debug, PartialEq, Eq)]
pub enum Refusal {
    // there are too many bytes
    TooLong,
    // a byte is needed and there is none
    Ended(usize),
    // no table has this kind
    UnknownKind(usize),
    // a known kind, out of its place
    WrongSort(usize),
    // no variable has this number
    NoProposition(usize),
    // a byte after the whole
    Leftover(usize),
}

impl Refusal {
    // The refusal's number.
    pub fn number(self) -> u64
        ensures { result ≡ number self }
    {
        match self {
            Refusal::TooLong => 9,
            Refusal::Ended(_) => 2,
            Refusal::UnknownKind(_) => 3,
            Refusal::WrongSort(_) => 4,
            Refusal::NoProposition(_) => 5,
            Refusal::Leftover(_) => 6,
        }
    }

    // The byte that it is about.
    pub fn place(self) -> usize
        ensures { result ≡ place self }
    {
        match self {
            Refusal::TooLong => 0,
            Refusal::Ended(p) => p,
            Refusal::UnknownKind(p) => p,
            Refusal::WrongSort(p) => p,
            Refusal::NoProposition(p) => p,
            Refusal::Leftover(p) => p,
        }
    }
}

// Reads a whole system: any string of bytes has one answer. The first formula stands at 1, the step's at the place that is given.
pub fn read_system(system: &[u8]) -> Result<usize, Refusal>
    ensures { told result ≡ answer system.now }
{
    if LONGEST_SYSTEM < system.len() {
        return Err(Refusal::TooLong);
    }
    let step = step_start(system)?;
    let end = formula_end(system, step, true)?;
    if end < system.len() {
        return Err(Refusal::Leftover(end));
    }
    Ok(step)
}
