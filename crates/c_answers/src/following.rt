// What a step or a sequence comes to, and its numbers.
ghost use Rattle.std.specs.Prelude.{◌≡◌};
ghost use Rattle.walkers.specs.Walks.{ending};
ghost use Rattle.c_answers.specs.Numbers.{moved_numbers_of};

use walkers::Refusal;

// What a sequence comes to: 1 where a final is in the set at its end.
#[repr(C)]
#[derive(Drop)]
pub struct GcMoved {
    pub refused: u64,
    pub place: u64,
    pub matches: u64,
}

// The numbers for each case of the answer.
pub fn moved_numbers(answer: Result<bool, Refusal>) -> GcMoved
    ensures { result ≡ moved_numbers_of (ending answer) }
{
    match answer {
        Ok(matches) => GcMoved {
            refused: 0,
            place: 0,
            matches: matches as u64,
        },
        Err(x) => GcMoved {
            refused: x.number(),
            place: x.place() as u64,
            matches: 0,
        },
    }
}
