// What reading or writing a text gives back, and its numbers.
ghost use Rattle.std.specs.Prelude.{◌≡◌};
ghost use Rattle.texts.specs.Answer as texts;
ghost use Rattle.c_answers.specs.Numbers.{text_numbers_of};

use texts::{Given, TextRefusal};

// What reading or writing a text gives back: how many bytes, or characters, were written, the rule's weight,
// and the propositions that it names.
#[repr(C)]
#[derive(Drop)]
pub struct GcText {
    pub refused: u64,
    pub place: u64,
    pub length: u64,
    pub weight: u64,
    pub uses: u64,
}

// The numbers for each case of the answer.
pub fn text_numbers(answer: Result<Given, TextRefusal>) -> GcText
    ensures { result ≡ text_numbers_of (texts.told answer) }
{
    match answer {
        Ok(given) => GcText {
            refused: 0,
            place: 0,
            length: given.long as u64,
            weight: given.rule.weight as u64,
            uses: given.rule.uses,
        },
        Err(x) => GcText {
            refused: x.number(),
            place: x.place() as u64,
            length: 0,
            weight: 0,
            uses: 0,
        },
    }
}
