// Bytes, words, numbers and refusals as text, each written from a place of a lent slice on; the answer is the place after it.
#![tactic(auto)]

ghost use Rattle.std.specs.Prelude.{◌+◌, ◌≤◌, ◌<◌, ◌≡◌, [], ◌∷◌, length, take, drop};
ghost use Rattle.writing.specs.Decimal.{digit as digit-of, decimal, named};
ghost use Rattle.writing.specs.Refused.{refused_text};
ghost use Rattle.writing.specs.Wrote.{Wrote};

const ZERO: u8 = 48;

const BASE: u64 = 10;

const REFUSED: [u8; 8] = *b"refused ";

const AT: [u8; 4] = *b" at ";

// The first n bytes.
pub fn front(s: &[u8], n: usize) -> &[u8]
    requires { n ≤ length s.now }
    ensures { result.now ≡ take n s.now }
{
    &s[..n]
}

// What follows the first n bytes.
pub fn past(s: &[u8], n: usize) -> &[u8]
    requires { n ≤ length s.now }
    ensures { result.now ≡ drop n s.now }
{
    &s[n..]
}

pub fn put_byte(out: &mut [u8], at: usize, byte: u8) -> usize
    requires { at < length out.old }
    ensures { Wrote (byte ∷ []) out.old at out.new result }
{
    out[at] = byte;
    at + 1
}

pub fn put_word(out: &mut [u8], at: usize, word: &[u8]) -> usize
    requires { at + length word.now ≤ length out.old }
    ensures { Wrote word.now out.old at out.new result }
{
    let end = at + word.len();
    out[at..end].copy_from_slice(word);
    end
}

// The character of a digit.
fn digit(d: u64) -> u8
    requires { d < 10 }
    ensures { result ≡ digit-of d }
{
    ZERO + d as u8
}

// The digits of n's tenth stand before its last digit.
pub fn put_number(out: &mut [u8], at: usize, n: u64) -> usize
    requires { at + length (decimal n) ≤ length out.old }
    ensures { Wrote (decimal n) out.old at out.new result }
{
    if n < BASE {
        return put_byte(out, at, digit(n));
    }
    let end = put_number(out, at, n / BASE);
    put_byte(out, end, digit(n % BASE))
}

// A word and then a number.
pub fn put_named(out: &mut [u8], at: usize, word: &[u8], n: u64) -> usize
    requires { at + length (named word.now n) ≤ length out.old }
    ensures { Wrote (named word.now n) out.old at out.new result }
{
    let past = put_word(out, at, word);
    put_number(out, past, n)
}

// A refusal, from the beginning of the slice on.
pub fn put_refused(out: &mut [u8], number: u64, place: usize) -> usize
    requires { length (refused_text number place) ≤ length out.old }
    ensures { Wrote (refused_text number place) out.old 0 out.new result }
{
    let past = put_named(out, 0, &REFUSED, number);
    put_named(out, past, &AT, place as u64)
}
