// The answers of a rule for all parts of the letters at once, from its operands' answers.
ghost use Rattle.std.specs.Prelude.{◌≡◌, ℕ, ◌<◌, ◌≤◌};
ghost use Rattle.rules.specs.Places.{GoodFormula};
ghost use Rattle.judge.specs.Parts.{side, Filled, FilledBy};
ghost use Rattle.judge.specs.inner.Cut.{PairAt, StarAt, PlusOf, OccursAt};
ghost use Rattle.judge.specs.inner.Judging.{LetterRow, LetterParts, InRow};

use crate::cuts::{Answers, SIDE, occurs_at, pair_at, star_at};
use bits::those::those;
use definitions::counts::{Counts, after_one};
use definitions::kinds::Pair;
use formulas::holds_at;
use std::array;

// What a test says of each part, everywhere.
fn parts<F: Fn(usize, usize) -> bool>(test: F) -> Answers
    requires { (i e : ℕ) → i < side → e < side → F.pre test i e }
    ensures { FilledBy (F.post test) result }
{
    let mut out = [0u64; SIDE];
    for i in 0..SIDE {
        out[i] = those(
            SIDE,
            |e|
                requires { F.pre test i e }
                ensures { F.post test i e result }
            { test(i, e) },
        );
    }
    out
}

// An operator of two, everywhere.
// Apart, as those below: what a level of a nested rule holds is its answers alone.
#[inline(never)]
pub fn pair_parts(p: Pair, a: &Answers, b: &Answers) -> Answers
    ensures { Filled (PairAt p a.now b.now) result }
{
    parts(|i, e| pair_at(p, a, b, i, e))
}

// `[=i..j]`, everywhere, from the answers for one letter.
#[inline(never)]
pub fn occurs_parts(c: Counts, a: &Answers) -> Answers
    ensures { Filled (OccursAt c a.now) result }
{
    parts(|i, e| occurs_at(c, a, i, e))
}

// `[*]`, everywhere: the last place first, since a rest begins later.
#[inline(never)]
pub fn star_parts(a: &Answers) -> Answers
    ensures { Filled (StarAt a.now result) result }
{
    let mut out = [0u64; SIDE];
    for i in (0..SIDE).rev() {
        out[i] = those(SIDE, |e| star_at(a, &out, i, e));
    }
    out
}

// `[+]`, everywhere: a first part, perhaps empty, and then a repetition.
#[inline(never)]
pub fn plus_parts(a: &Answers) -> Answers
    ensures { PlusOf a.now result }
{
    let rest = star_parts(a);
    pair_parts(Pair::Then, a, &rest)
}

// `[*i..j]`, everywhere: one part and then those after it, or nothing where no part is needed.
pub fn row_parts(c: Counts, a: &Answers) -> Answers
    requires { c.low ≤ c.high }
    ensures { InRow a.now c result }
{
    let none = empty_parts();
    if c.high == 0 {
        return none;
    }
    let after = row_parts(after_one(c), a);
    let some = pair_parts(Pair::Then, a, &after);
    if c.low == 0 {
        return pair_parts(Pair::Either, &some, &none);
    }
    some
}

// The empty sequence: a part that ends where it begins.
#[inline(never)]
pub fn empty_parts() -> Answers
    ensures { Filled ◌≡◌ result }
{
    array::from_fn(|i| bits::with(0, i))
}

// The parts that begin at i: the letter there, if there is one and the formula that stands at `at` holds in it.
fn letter_row(rule: &[u8], at: usize, letters: &[u8], i: usize) -> u64
    requires { GoodFormula rule.now at × (i < side) }
    ensures { LetterRow rule.now at letters.now i result }
{
    if letters.len() <= i {
        return 0;
    }
    let h = holds_at(rule, at, letters[i]);
    if h.holds {
        return bits::with(0, i + 1);
    }
    0
}

// One letter, of which the formula that stands at `at` holds.
#[inline(never)]
pub fn letter_parts(rule: &[u8], at: usize, letters: &[u8]) -> Answers
    requires { GoodFormula rule.now at }
    ensures { LetterParts rule.now at letters.now result }
{
    array::from_fn(|i| letter_row(rule, at, letters, i))
}
