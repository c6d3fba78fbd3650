// A set by a test of its members.
ghost use Rattle.std.specs.Prelude.{◌≡◌, ℕ, ◌<◌, ◌≤◌};
ghost use Rattle.bits.specs.Those.{ThoseBelow};
ghost use Rattle.bits.specs.Word.{word_bits};

use crate::with_if;

// The numbers below n that the test says yes to.
pub fn those<F: Fn(usize) -> bool>(n: usize, test: F) -> u64
    requires few { n ≤ word_bits }
    requires can { (k : ℕ) → k < n → F.pre test k }
    ensures { ThoseBelow n (F.post test) result }
{
    let mut set: u64 = 0;
    for k in 0..n {
        set = with_if(set, k, test(k));
    }
    set
}
