// The papers' definitions and the house form: what a kind byte says, the counts after it, and why a rule is refused.
#![tactic(auto)]

ghost use Rattle.std.specs.Prelude.{◌≡◌};
ghost use Rattle.definitions.specs.Refusals.{number, place};

pub mod kinds; // what a kind byte says
pub mod counts; // the two counts after a kind byte
pub mod numbers; // the numbers of the refusals that several calls share

// Why a rule is refused; the variants stand in the order of their numbers, 1 to 8, and hold their places.
#[derive(Clone, Copy, Debug, PartialEq, Eq)]
pub enum Refusal {
    TooLong,
    Ended(usize),
    UnknownKind(usize),
    WrongSort(usize),
    NoProposition(usize),
    Leftover(usize),
    TooHeavy,
    BadCounts(usize),
}

impl Refusal {
    // The refusal's number.
    pub fn number(self) -> u64
        ensures { result ≡ number self }
    {
        match self {
            Refusal::TooLong => 1,
            Refusal::Ended(_) => 2,
            Refusal::UnknownKind(_) => 3,
            Refusal::WrongSort(_) => 4,
            Refusal::NoProposition(_) => 5,
            Refusal::Leftover(_) => 6,
            Refusal::TooHeavy => 7,
            Refusal::BadCounts(_) => 8,
        }
    }

    // The byte that it is about.
    pub fn place(self) -> usize
        ensures { result ≡ place self }
    {
        match self {
            Refusal::TooLong => 0,
            Refusal::Ended(p) => p,
            Refusal::UnknownKind(p) => p,
            Refusal::WrongSort(p) => p,
            Refusal::NoProposition(p) => p,
            Refusal::Leftover(p) => p,
            Refusal::TooHeavy => 0,
            Refusal::BadCounts(p) => p,
        }
    }
}
