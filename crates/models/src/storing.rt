// The model that the bytes of some states are.
ghost use Rattle.std.specs.Prelude.{◌≡◌, eqb};
ghost use Rattle.bits.specs.Word.{word};
ghost use Rattle.models.specs.Reading.{letter, flag, successors, Whole};
ghost use Rattle.models.specs.Stored.{column, stored};

use crate::ModelData;
use crate::layout::{FLAG, INITIAL, LETTER, RECORD, SUCCESSORS};
use bits::those::those;
use bits::word_at;

// The letters of the n states.
fn letters_of(model: &[u8], n: usize) -> [u8; 64]
    requires { Whole model.now n }
    ensures { result ≡ column n (letter model.now) }
{
    let mut letters = [0u8; 64];
    for k in 0..n {
        letters[k] = model[RECORD * k + LETTER];
    }
    letters
}

// The initial states among the n.
fn initial_of(model: &[u8], n: usize) -> u64
    requires { Whole model.now n }
    ensures { result ≡ word n (λ k. eqb (flag model.now k) 1) }
{
    those(n, |k| model[RECORD * k + FLAG] == INITIAL)
}

// The successors of the n states.
fn successors_of(model: &[u8], n: usize) -> [u64; 64]
    requires { Whole model.now n }
    ensures { result ≡ column n (successors model.now) }
{
    let mut successors = [0u64; 64];
    for k in 0..n {
        successors[k] = word_at(model, RECORD * k + SUCCESSORS);
    }
    successors
}

// The model of n states that the bytes are.
pub fn model_of(model: &[u8], n: usize) -> ModelData
    requires { Whole model.now n }
    ensures { result ≡ stored model.now n }
{
    let letters = letters_of(model, n);
    let initial = initial_of(model, n);
    let successors = successors_of(model, n);
    ModelData {
        states: n,
        letters,
        initial,
        successors,
    }
}
