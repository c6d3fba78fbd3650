// What building gives back, and its numbers.
ghost use Rattle.std.specs.Prelude.{◌≡◌};
ghost use Rattle.tables.specs.Answer as tables;
ghost use Rattle.c_answers.specs.Numbers.{built_numbers_of};

use tables::{Refusal, Tabled};

// What building gives back: the weight, the set of the final states, and the propositions that the rule names.
#[repr(C)]
#[derive(Drop)]
pub struct GcBuilt {
    pub refused: u64,
    pub place: u64,
    pub weight: u64,
    pub finals: u64,
    pub uses: u64,
}

// The numbers for each case of the answer.
pub fn built_numbers(answer: Result<Tabled, Refusal>) -> GcBuilt
    ensures { result ≡ built_numbers_of (tables.told answer) }
{
    match answer {
        Ok(Tabled { rule, finals }) => GcBuilt {
            refused: 0,
            place: 0,
            weight: rule.weight as u64,
            finals,
            uses: rule.uses,
        },
        Err(x) => GcBuilt {
            refused: x.number(),
            place: x.place() as u64,
            weight: 0,
            finals: 0,
            uses: 0,
        },
    }
}
