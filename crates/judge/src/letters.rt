// Whether the bytes of a sequence are letters.
ghost use Rattle.judge.specs.Verdict.{ScannedAs};

use formulas::LETTER_COUNT;

const LAST_LETTER: u8 = (LETTER_COUNT - 1) as u8;

// The place of the first byte that is no letter, if there is one.
pub fn scan(letters: &[u8]) -> Option<usize>
    ensures { ScannedAs letters.now result }
{
    letters.iter().position(|x| LAST_LETTER < *x)
}
