// What judging gives back, and its numbers.
ghost use Rattle.std.specs.Prelude.{◌≡◌};
ghost use Rattle.judge.specs.Verdict as judge;
ghost use Rattle.c_answers.specs.Numbers.{judged_numbers_of};

use judge::{Judged, Refusal};

// What judging gives back: `accepts` is 1 for yes and 0 for no; and the propositions that the rule names.
#[repr(C)]
#[derive(Drop)]
pub struct GcJudged {
    pub refused: u64,
    pub place: u64,
    pub accepts: u64,
    pub uses: u64,
}

// The numbers for each case of the answer.
pub fn judged_numbers(answer: Result<Judged, Refusal>) -> GcJudged
    ensures { result ≡ judged_numbers_of (judge.told answer) }
{
    match answer {
        Ok(j) => GcJudged {
            refused: 0,
            place: 0,
            accepts: j.accepts as u64,
            uses: j.rule.uses,
        },
        Err(x) => GcJudged {
            refused: x.number(),
            place: x.place() as u64,
            accepts: 0,
            uses: 0,
        },
    }
}
