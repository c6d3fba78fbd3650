// Reads a model of jobs in the house form: its states, or the first refusal with its place.
#![tactic(auto)]

ghost use Rattle.std.specs.Prelude.{◌≡◌};
ghost use Rattle.models.specs.Stored.{Held};
ghost use Rattle.models.specs.Answer.{number, place, refused_as, counted, told, answer};
ghost use Rattle.models.specs.Reading.{reading};

use crate::layout::{MOST, RECORD};
use crate::records::{count_states, links};
use crate::storing::model_of;

mod layout; // where the bytes of a state stand
mod records; // the records and the successors, read in order
mod storing; // the model that they are

// A model in memory. Of state k the letter and the set of successors stand at k; the entries past the states are 0.
#[derive(Drop)]
pub struct ModelData {
    pub states: usize,
    pub letters: [u8; 64],
    pub initial: u64,
    pub successors: [u64; 64],
}

// Why a model is refused, and at which place of its bytes.
#[derive(Clone, Copy, Debug, PartialEq, Eq)]
pub enum Refusal {
    // a byte follows 64 good records
    TooMany,
    // the kind byte is another
    WrongKind(usize),
    // the bytes end inside a record: the model's length
    CutShort(usize),
    // the letter is above 63
    LetterTooLarge(usize),
    // the flag is neither 0 nor 1
    WrongFlag(usize),
    // a successor that does not exist: the state's first successor byte
    NoSuchState(usize),
}

impl Refusal {
    // The refusal's number.
    pub fn number(self) -> u64
        ensures { result ≡ number self }
    {
        match self {
            Refusal::TooMany => 11,
            Refusal::WrongKind(_) => 12,
            Refusal::CutShort(_) => 13,
            Refusal::LetterTooLarge(_) => 14,
            Refusal::WrongFlag(_) => 15,
            Refusal::NoSuchState(_) => 16,
        }
    }

    // The byte that it is about.
    pub fn place(self) -> usize
        ensures { result ≡ place self }
    {
        match self {
            Refusal::TooMany => RECORD * MOST,
            Refusal::WrongKind(p) => p,
            Refusal::CutShort(p) => p,
            Refusal::LetterTooLarge(p) => p,
            Refusal::WrongFlag(p) => p,
            Refusal::NoSuchState(p) => p,
        }
    }
}

// The answer, and the model beside it: one with no states where it is refused.
#[derive(Drop)]
pub struct ModelRead {
    pub answer: Result<(), Refusal>,
    pub model: ModelData,
}

// How many states the bytes are, all in order, or the first refusal.
fn states_of(model: &[u8]) -> Result<usize, Refusal>
    ensures { counted result ≡ reading model.now }
{
    let n = count_states(model)?;
    links(model, n)?;
    Ok(n)
}

// A refusal comes with the model that has no states.
fn refused(x: Refusal) -> ModelRead
    ensures { told result ≡ refused_as (number x) (place x) }
{
    ModelRead {
        answer: Err(x),
        model: ModelData {
            states: 0,
            letters: [0u8; 64],
            initial: 0,
            successors: [0u64; 64],
        },
    }
}

// Reads a whole model, and answers for all bytes: refusals 11 to 16, or the model.
pub fn read_model(model: &[u8]) -> ModelRead
    ensures answered { told result ≡ answer model.now }
    ensures held { Held result.model }
{
    match states_of(model) {
        Ok(n) => ModelRead {
            answer: Ok(()),
            model: model_of(model, n),
        },
        Err(x) => refused(x),
    }
}
