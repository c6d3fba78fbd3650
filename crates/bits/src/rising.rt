// The members of a set, one after another, in rising order.
ghost use Rattle.std.specs.Prelude.{◌≡◌};
ghost use Rattle.bits.specs.Word.{bit, many, word_bits};

use crate::{lowest, without};

// The members that are still to come.
#[derive(Clone, Drop)]
pub struct Rising {
    pub rest: u64,
}

impl Iterator for Rising {
    ghost use Rattle.std.specs.Iterator.{at_most};
    ghost use Rattle.bits.specs.Rising.{TakesLowest};
    ghost use Rattle.bits.specs.Word.{bit, many, word_bits};

    type Item = usize;

    ghost next_gives = { λ old taken new. TakesLowest old.rest taken new.rest };

    ghost remaining = { λ s. at_most (many word_bits (bit s.rest)) };

    #[inline(always)]
    fn next(&mut self) -> Option<usize> {
        if self.rest == 0 {
            return None;
        }
        let k = lowest(self.rest);
        self.rest = without(self.rest, k);
        Some(k)
    }
}

// The members of a set.
pub fn members(set: u64) -> Rising
    ensures { result.rest ≡ set }
{
    Rising { rest: set }
}
