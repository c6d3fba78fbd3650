// What reading a rule or a model gives back, and its numbers.
ghost use Rattle.std.specs.Prelude.{◌≡◌};
ghost use Rattle.rules.specs.Answer as rules;
ghost use Rattle.models.specs.Answer as models;
ghost use Rattle.c_answers.specs.Numbers.{rule_numbers_of, model_numbers_of};

use models::ModelRead;
use rules::Known;

// What reading a rule gives back: the weight, and the set of the propositions that it names, bit i for proposition i.
#[repr(C)]
#[derive(Drop)]
pub struct GcRule {
    pub refused: u64,
    pub place: u64,
    pub weight: u64,
    pub uses: u64,
}

// What reading a model gives back.
#[repr(C)]
#[derive(Drop)]
pub struct GcModel {
    pub refused: u64,
    pub place: u64,
    pub states: u64,
}

// The numbers for each case of the answer.
pub fn rule_numbers(answer: Result<Known, definitions::Refusal>) -> GcRule
    ensures { result ≡ rule_numbers_of (rules.told answer) }
{
    match answer {
        Ok(known) => GcRule {
            refused: 0,
            place: 0,
            weight: known.weight as u64,
            uses: known.uses,
        },
        Err(x) => GcRule {
            refused: x.number(),
            place: x.place() as u64,
            weight: 0,
            uses: 0,
        },
    }
}

// The numbers for each case of the answer: of a model only how many states it has.
pub fn model_numbers(read: ModelRead) -> GcModel
    ensures { result ≡ model_numbers_of (models.told read) }
{
    match read.answer {
        Ok(()) => GcModel {
            refused: 0,
            place: 0,
            states: read.model.states as u64,
        },
        Err(x) => GcModel {
            refused: x.number(),
            place: x.place() as u64,
            states: 0,
        },
    }
}
