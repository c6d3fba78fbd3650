// Definition 2 at one part of the letters, over the answers of the operands: a function for each operator.
ghost use Rattle.std.specs.Prelude.{◌≡◌, ◌+◌, ◌<◌, ◌≤◌};
ghost use Rattle.bits.specs.Says.{Says};
ghost use Rattle.judge.specs.Parts.{side, yes};
ghost use Rattle.judge.specs.inner.Cut.{ThenAt, OverlapAt, BeginsAt, WithinAt, PairAt, StarAt, letters_at_of, OccursAt};

use definitions::counts::Counts;
use definitions::kinds::Pair;

// The most letters that the judge takes.
pub const LETTER_LIMIT: usize = 16;

// The places that a part can begin or end at.
pub const SIDE: usize = LETTER_LIMIT + 1;

// For each place that a part begins at, the places where it ends and is accepted.
pub type Answers = [u64; SIDE];

// Whether the part from i to e is accepted.
pub fn accepted(a: &Answers, i: usize, e: usize) -> bool
    requires { (i < side) × (e < side) }
    ensures { result ≡ yes a.now i e }
{
    bits::has(a[i], e)
}

// `;`: a cut anywhere, either side perhaps empty.
fn then_at(a: &Answers, b: &Answers, i: usize, e: usize) -> bool
    requires { (i < side) × (e < side) }
    ensures { Says result (ThenAt a.now b.now i e) }
{
    (i..e + 1).any(|cut| accepted(a, i, cut) && accepted(b, cut, e))
}

// `:`: a letter that closes the first part and opens the second, so that neither is empty.
fn overlap_at(a: &Answers, b: &Answers, i: usize, e: usize) -> bool
    requires { (i < side) × (e < side) }
    ensures { Says result (OverlapAt a.now b.now i e) }
{
    (i..e).any(|shared| accepted(a, i, shared + 1) && accepted(b, shared, e))
}

// Some beginning of the part, perhaps empty or all of it.
fn begins_at(a: &Answers, i: usize, e: usize) -> bool
    requires { (i < side) × (e < side) }
    ensures { Says result (BeginsAt a.now i e) }
{
    (i..e + 1).any(|end| accepted(a, i, end))
}

// `&`, one way round: a accepts all of it and b a beginning.
fn within_at(a: &Answers, b: &Answers, i: usize, e: usize) -> bool
    requires { (i < side) × (e < side) }
    ensures { Says result (WithinAt a.now b.now i e) }
{
    accepted(a, i, e) && begins_at(b, i, e)
}

// What an operator of two makes of its operands' answers.
pub fn pair_at(p: Pair, a: &Answers, b: &Answers, i: usize, e: usize) -> bool
    requires { (i < side) × (e < side) }
    ensures { Says result (PairAt p a.now b.now i e) }
{
    match p {
        Pair::Then => then_at(a, b, i, e),
        Pair::Overlap => overlap_at(a, b, i, e),
        Pair::Either => accepted(a, i, e) || accepted(b, i, e),
        Pair::Within => within_at(a, b, i, e) || within_at(b, a, i, e),
        Pair::Both => accepted(a, i, e) && accepted(b, i, e),
    }
}

// `[*]`: nothing, or a first part that is not empty and a rest that is a repetition.
pub fn star_at(a: &Answers, rest: &Answers, i: usize, e: usize) -> bool
    requires { (i < side) × (e < side) }
    ensures { Says result (StarAt a.now rest.now i e) }
{
    i == e || (i + 1..e + 1).any(|next| accepted(a, i, next) && accepted(rest, next, e))
}

// How many letters from i to e are accepted.
fn letters_at(a: &Answers, i: usize, e: usize) -> usize
    requires { (i < side) × (e < side) }
    ensures { result ≡ letters_at_of a.now i e }
{
    (i..e).filter(|k| accepted(a, *k, *k + 1)).count()
}

// `[=i..j]`: as many letters as are asked for, wherever they stand.
pub fn occurs_at(c: Counts, a: &Answers, i: usize, e: usize) -> bool
    requires { (i < side) × (e < side) }
    ensures { Says result (OccursAt c a.now i e) }
{
    let n = letters_at(a, i, e);
    c.low <= n && n <= c.high
}
