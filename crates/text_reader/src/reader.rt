// Reading a text: characters are taken one after another, and the bytes of what they say are written. What stands before an operand is known after it:
// the place of the longest head is left free until then, and a shorter one has fillers, which are taken out when all is read.
ghost use Rattle.std.specs.Prelude.{◌+◌, ◌*◌, ◌≤◌, ◌<◌, length, ◌≡◌, take};
ghost use Rattle.grammar.specs.inner.Wide.{head_length, head_bytes, squeezed};
ghost use Rattle.text_reader.specs.inner.Takings.{KindTaken, DigitTaken, FormulaTaken, JoinTaken, LetterTaken, RuleTaken, BraceTaken, Closes};
ghost use Rattle.writing.specs.Wrote.{Wrote};

use grammar::counts::digit_at;
use grammar::signs::{FILLER, Head, Sign, junction_at, occurrence_at, sign_at};
use grammar::words::{Fault, stands, word_end};
use writing::{put_byte, put_word};

const PROPOSITION: u8 = 0x01;

const TRUTH: u8 = 0x02;

const FALSITY: u8 = 0x03;

const NOT: u8 = 0x04;

const EMPTY: u8 = 0x11;

// A kind and two counts.
const HEAD: usize = 3;

// What follows the first character of a word.
const RUE: [u8; 3] = *b"rue";

const ALSE: [u8; 4] = *b"alse";

const STAR_ZERO: [u8; 3] = *b"*0]";

const LAST_PROPOSITION: u8 = 5;

// The place after what was taken and the place after its bytes.
#[derive(Clone, Copy, Debug, PartialEq, Eq)]
pub struct Taken {
    pub end: usize,
    pub past: usize,
}

// What was taken, and the character after it.
fn closed(text: &[u8], taken: Taken, char: u8) -> Result<Taken, Fault>
    ensures { Closes text.now char taken result }
{
    if !stands(text, taken.end, char) {
        return Err(Fault { place: taken.end });
    }
    Ok(Taken {
        end: taken.end + 1,
        past: taken.past,
    })
}

// A word, which says one kind byte.
fn kind_in(
    text: &[u8],
    at: usize,
    word: &[u8],
    kind: u8,
    bytes: &mut [u8],
    to: usize,
) -> Result<Taken, Fault>
    requires { (at ≤ length text.now) × (to < length bytes.old) }
    ensures { KindTaken text.now at word.now kind bytes.old to bytes.new result }
{
    let end = word_end(text, at, word)?;
    let past = put_byte(bytes, to, kind);
    Ok(Taken { end, past })
}

// The digit of a proposition.
fn digit_in(text: &[u8], at: usize, bytes: &mut [u8], to: usize) -> Result<Taken, Fault>
    requires { to + 1 + length text.now ≤ at + length bytes.old }
    ensures { DigitTaken text.now at bytes.old to bytes.new result }
{
    let Some(digit) = digit_at(text, at, LAST_PROPOSITION) else {
        return Err(Fault { place: at });
    };
    let body = put_byte(bytes, to, PROPOSITION);
    let past = put_byte(bytes, body, digit);
    Ok(Taken { end: at + 1, past })
}

// A formula.
#[cycle(formula_in_join_in)]
pub fn formula_in(text: &[u8], at: usize, bytes: &mut [u8], to: usize) -> Result<Taken, Fault>
    requires { to + length text.now ≤ at + length bytes.old }
    ensures { FormulaTaken text.now at bytes.old to bytes.new result }
{
    if stands(text, at, b'p') {
        return digit_in(text, at + 1, bytes, to);
    }
    if stands(text, at, b't') {
        return kind_in(text, at + 1, &RUE, TRUTH, bytes, to);
    }
    if stands(text, at, b'f') {
        return kind_in(text, at + 1, &ALSE, FALSITY, bytes, to);
    }
    if stands(text, at, b'!') {
        let past = put_byte(bytes, to, NOT);
        return formula_in(text, at + 1, bytes, past);
    }
    if stands(text, at, b'(') {
        return join_in(text, at + 1, bytes, to);
    }
    Err(Fault { place: at })
}

// What stands after `(`.
#[cycle(formula_in_join_in)]
fn join_in(text: &[u8], at: usize, bytes: &mut [u8], to: usize) -> Result<Taken, Fault>
    requires { (at ≤ length text.now) × (to + 1 + length text.now ≤ at + length bytes.old) }
    ensures { JoinTaken text.now at bytes.old to bytes.new result }
{
    let first = formula_in(text, at, bytes, to + 1)?;
    let Some(kind) = junction_at(text, first.end) else {
        return Err(Fault { place: first.end });
    };
    put_byte(bytes, to, kind.byte());
    let second = formula_in(text, first.end + 1, bytes, first.past)?;
    closed(text, second, b')')
}

// The three bytes of a head.
fn put_head(bytes: &mut [u8], to: usize, head: Head) -> usize
    requires { to + head_length ≤ length bytes.old }
    ensures { Wrote (head_bytes head) bytes.old to bytes.new result }
{
    put_word(bytes, to, &head.bytes())
}

// A formula that stands as a rule, and counts if they follow.
fn letter_in(text: &[u8], at: usize, bytes: &mut [u8], to: usize) -> Result<Taken, Fault>
    requires { (at < length text.now) × (to + 1 + 3 * length text.now ≤ 3 * at + length bytes.old) }
    ensures { LetterTaken text.now at bytes.old to bytes.new result }
{
    let operand = formula_in(text, at, bytes, to + HEAD)?;
    let after = occurrence_at(text, operand.end)?;
    put_head(bytes, to, after.head);
    Ok(Taken {
        end: after.end,
        past: operand.past,
    })
}

// A rule.
#[cycle(brace_in_rule_in)]
pub fn rule_in(text: &[u8], at: usize, bytes: &mut [u8], to: usize) -> Result<Taken, Fault>
    requires { to + 1 + 3 * length text.now ≤ 3 * at + length bytes.old }
    ensures { RuleTaken text.now at bytes.old to bytes.new result }
{
    if text.len() <= at {
        return Err(Fault { place: at });
    }
    if stands(text, at, b'[') {
        return kind_in(text, at + 1, &STAR_ZERO, EMPTY, bytes, to);
    }
    if stands(text, at, b'{') {
        return brace_in(text, at + 1, bytes, to);
    }
    letter_in(text, at, bytes, to)
}

// What stands after `{`.
#[cycle(brace_in_rule_in)]
fn brace_in(text: &[u8], at: usize, bytes: &mut [u8], to: usize) -> Result<Taken, Fault>
    requires { (at ≤ length text.now) × (to + head_length + 1 + 3 * length text.now ≤ 3 * at + length bytes.old) }
    ensures { BraceTaken text.now at bytes.old to bytes.new result }
{
    let first = rule_in(text, at, bytes, to + HEAD)?;
    let sign = sign_at(text, first.end)?;
    match sign {
        Sign::Repetition(after) => {
            put_head(bytes, to, after.head);
            Ok(Taken {
                end: after.end,
                past: first.past,
            })
        }
        Sign::Operator { pair, end } => {
            put_head(bytes, to, Head::Two(pair));
            let second = rule_in(text, end, bytes, first.past)?;
            closed(text, second, b'}')
        }
    }
}

// Takes the fillers out of the first `long` bytes; the answer is how many are left.
pub fn squeeze(bytes: &mut [u8], long: usize) -> usize
    requires { long ≤ length bytes.old }
    ensures { (take result bytes.new ≡ squeezed (take long bytes.old)) × (result ≤ length bytes.new) }
{
    let mut to = 0;
    for i in 0..long {
        let byte = bytes[i];
        if byte != FILLER {
            bytes[to] = byte;
            to += 1;
        }
    }
    to
}
