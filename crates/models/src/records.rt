// Reads the records of a model one after the other, and then the successors: the first fault, or how many states there are.
ghost use Rattle.std.specs.Prelude.{◌≡◌, ◌<◌, ◌≤◌, length};
ghost use Rattle.models.specs.Reading.{Outcome, good, one_record, records, straying, linked, Whole};
ghost use Rattle.models.specs.Answer.{onward, counted};
ghost use Rattle.models.specs.Model.{model_states};

use crate::Refusal;
use crate::layout::{FLAG, INITIAL, KIND, LAST_LETTER, LETTER, MOST, RECORD, SUCCESSORS};
use bits::{below, word_at};

// The record that begins at `at`, where there is a byte: accepted, or its first fault in reading order.
fn record_at(model: &[u8], at: usize) -> Result<(), Refusal>
    requires { (at < length model.now) × (at < 704) }
    ensures { (on : Outcome) → one_record model.now at on ≡ onward result on }
{
    if model[at] != KIND {
        return Err(Refusal::WrongKind(at));
    }
    if model.len() <= at + LETTER {
        return Err(Refusal::CutShort(model.len()));
    }
    if LAST_LETTER < model[at + LETTER] {
        return Err(Refusal::LetterTooLarge(at + LETTER));
    }
    if model.len() <= at + FLAG {
        return Err(Refusal::CutShort(model.len()));
    }
    if INITIAL < model[at + FLAG] {
        return Err(Refusal::WrongFlag(at + FLAG));
    }
    if model.len() < at + RECORD {
        return Err(Refusal::CutShort(model.len()));
    }
    Ok(())
}

// Reads the records one after the other: how many there are, or the first fault.
pub fn count_states(model: &[u8]) -> Result<usize, Refusal>
    ensures { counted result ≡ records model_states model.now 0 }
{
    for k in 0..MOST {
        if model.len() <= RECORD * k {
            return Ok(k);
        }
        record_at(model, RECORD * k)?;
    }
    if model.len() <= RECORD * MOST {
        Ok(MOST)
    } else {
        Err(Refusal::TooMany)
    }
}

// Whether a set of successors has one at or above n.
fn strays(set: u64, n: usize) -> bool
    requires { n ≤ model_states }
    ensures { result ≡ straying n set }
{
    set & !below(n) != 0
}

// The successors of the n states: accepted, or the lowest state that has one which does not exist.
pub fn links(model: &[u8], n: usize) -> Result<(), Refusal>
    requires { Whole model.now n }
    ensures { onward result (good n) ≡ linked n model.now n 0 }
{
    for k in 0..n {
        let at = RECORD * k + SUCCESSORS;
        if strays(word_at(model, at), n) {
            return Err(Refusal::NoSuchState(at));
        }
    }
    Ok(())
}
