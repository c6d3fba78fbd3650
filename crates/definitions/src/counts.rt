// The two counts of a repetition, which follow its kind byte.
ghost use Rattle.std.specs.Prelude.{◌≡◌, ◌+◌, ◌-◌, ◌<◌, ◌≤◌, length};
ghost use Rattle.definitions.specs.Encoding.{counts_do_fit};
ghost use Rattle.definitions.specs.Encoding.{CountsAs};

const LARGEST_COUNT: u8 = 15;

#[derive(Clone, Copy)]
pub struct Counts {
    pub low: usize,
    pub high: usize,
}

// Whether these may stand as the two counts.
pub fn counts_fit(low: u8, high: u8) -> bool
    ensures { result ≡ counts_do_fit low high }
{
    if low <= high {
        high <= LARGEST_COUNT
    } else {
        false
    }
}

// The counts of the rule at `at`.
pub fn counts_at(rule: &[u8], at: usize) -> Counts
    requires { at + 2 < length rule.now }
    ensures { CountsAs rule.now at result }
{
    Counts {
        low: rule[at + 1] as usize,
        high: rule[at + 2] as usize,
    }
}

// One less, and no less than none.
fn fewer(n: usize) -> usize
    ensures { result ≡ n - 1 }
{
    if n == 0 { 0 } else { n - 1 }
}

// What is left to count after one.
pub fn after_one(c: Counts) -> Counts
    requires { 1 ≤ c.high }
    ensures { (result.low ≡ c.low - 1) × (result.high ≡ c.high - 1) }
{
    Counts {
        low: fewer(c.low),
        high: c.high - 1,
    }
}
