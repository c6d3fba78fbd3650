// What a conversion gives back, and its numbers.
ghost use Rattle.std.specs.Prelude.{◌≡◌};
ghost use Rattle.letter_rows.specs.Answer as rows;
ghost use Rattle.c_answers.specs.Numbers.{done_numbers_of};

use letter_rows::Refusal;

// What a call gives back that only says whether it was done.
#[repr(C)]
#[derive(Drop)]
pub struct GcDone {
    pub refused: u64,
    pub place: u64,
}

// The numbers for each case of the answer.
pub fn done_numbers(answer: Result<(), Refusal>) -> GcDone
    ensures { result ≡ done_numbers_of (rows.told answer) }
{
    match answer {
        Ok(()) => GcDone {
            refused: 0,
            place: 0,
        },
        Err(x) => GcDone {
            refused: x.number(),
            place: x.place() as u64,
        },
    }
}
