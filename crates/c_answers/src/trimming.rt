// What trimming gives back, and its numbers.
ghost use Rattle.std.specs.Prelude.{◌≡◌};
ghost use Rattle.trims.specs.Answer as trims;
ghost use Rattle.c_answers.specs.Numbers.{trimmed_numbers_of};

use trims::{Refusal, TrimmedTable};

// What trimming gives back: the new weight, and the set of the final states at their new numbers.
#[repr(C)]
#[derive(Drop)]
pub struct GcTrimmed {
    pub refused: u64,
    pub place: u64,
    pub weight: u64,
    pub finals: u64,
}

// The numbers for each case of the answer.
pub fn trimmed_numbers(answer: Result<TrimmedTable, Refusal>) -> GcTrimmed
    ensures { result ≡ trimmed_numbers_of (trims.told answer) }
{
    match answer {
        Ok(table) => GcTrimmed {
            refused: 0,
            place: 0,
            weight: table.weight as u64,
            finals: table.finals,
        },
        Err(x) => GcTrimmed {
            refused: x.number(),
            place: x.place() as u64,
            weight: 0,
            finals: 0,
        },
    }
}
