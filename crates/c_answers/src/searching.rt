// What a search gives back, and its numbers.
ghost use Rattle.std.specs.Prelude.{◌≡◌, ℕ, List};
ghost use Rattle.search.specs.Answer as search;
ghost use Rattle.c_answers.specs.Numbers.{searched_numbers_of};

use search::{Answered, Refusal};

// What a search gives back: `found` is 1 where there is a run, which `length` counts; and the propositions that the rule names.
#[repr(C)]
#[derive(Drop)]
pub struct GcSearched {
    pub refused: u64,
    pub place: u64,
    pub found: u64,
    pub length: u64,
    pub pairs: u64,
    pub uses: u64,
}

// The numbers for each case of the answer.
pub fn searched_numbers(answer: Result<Answered, Refusal>) -> GcSearched
    ensures { (run : List ℕ) → result ≡ searched_numbers_of (search.told answer run) }
{
    match answer {
        Ok(Answered { searched, rule }) => match searched.found {
            Some(long) => GcSearched {
                refused: 0,
                place: 0,
                found: 1,
                length: long as u64,
                pairs: searched.pairs as u64,
                uses: rule.uses,
            },
            None => GcSearched {
                refused: 0,
                place: 0,
                found: 0,
                length: 0,
                pairs: searched.pairs as u64,
                uses: rule.uses,
            },
        },
        Err(x) => GcSearched {
            refused: x.number(),
            place: x.place() as u64,
            found: 0,
            length: 0,
            pairs: 0,
            uses: 0,
        },
    }
}
