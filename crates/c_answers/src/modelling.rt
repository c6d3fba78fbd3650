// What writing the model of two formulas gives back, and its numbers.
ghost use Rattle.std.specs.Prelude.{◌≡◌};
ghost use Rattle.formula_models.specs.Answer as formula_answer;
ghost use Rattle.c_answers.specs.Numbers.{written_numbers_of};

use formula_models::{MODEL_BYTES, Refusal};

// What is given back: how many bytes were written.
#[repr(C)]
#[derive(Drop)]
pub struct GcWritten {
    pub refused: u64,
    pub place: u64,
    pub length: u64,
}

// The numbers for each case of the answer.
pub fn written_numbers(answer: Result<(), Refusal>) -> GcWritten
    ensures { result ≡ written_numbers_of (formula_answer.told answer) }
{
    match answer {
        Ok(()) => GcWritten {
            refused: 0,
            place: 0,
            length: MODEL_BYTES as u64,
        },
        Err(x) => GcWritten {
            refused: x.number(),
            place: x.place() as u64,
            length: 0,
        },
    }
}
