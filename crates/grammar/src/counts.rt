// The counts of a repetition at a place of the text: decimal, no zero in front, the second no less than the first.
ghost use Rattle.std.specs.Prelude.{◌≤◌, length};
ghost use Rattle.definitions.specs.Encoding.{largest_count};
ghost use Rattle.grammar.specs.inner.Reading.{all, rest};
ghost use Rattle.grammar.specs.inner.Places.{DigitAt, NumberAt, HighAt, CountedAt};

use crate::words::{Fault, stands, word_end};

const LAST_DIGIT: u8 = 9;

const ONE: u8 = 1;

const TEN: u8 = 10;

// The second digit of the largest count, which is 15.
const LAST_SECOND: u8 = 5;

const DOTS: [u8; 2] = *b"..";

// A count and the place after it.
#[derive(Clone, Copy, Debug, PartialEq, Eq)]
pub struct Number {
    pub value: u8,
    pub end: usize,
}

// Both counts and the place after what closes them.
#[derive(Clone, Copy, Debug, PartialEq, Eq)]
pub struct Counted {
    pub low: u8,
    pub high: u8,
    pub end: usize,
}

// The digit at `at`, if one stands there that is at most `last`.
pub fn digit_at(text: &[u8], at: usize, last: u8) -> Option<u8>
    ensures { DigitAt text.now at last result }
{
    if text.len() <= at {
        return None;
    }
    let char = text[at];
    if char < b'0' {
        return None;
    }
    let digit = char - b'0';
    if last < digit {
        return None;
    }
    Some(digit)
}

// What follows a first digit 1: a second digit, if one stands there that a count can have; otherwise the count is 1.
fn teen_at(text: &[u8], at: usize, least: u8) -> Result<Number, Fault>
    requires { (at ≤ length text.now) × (least ≤ largest_count) }
    ensures { NumberAt text.now at rest least result }
{
    let Some(second) = digit_at(text, at, LAST_SECOND) else {
        if ONE < least {
            return Err(Fault { place: at });
        }
        return Ok(Number {
            value: ONE,
            end: at,
        });
    };
    let value = TEN + second;
    if value < least {
        return Err(Fault { place: at });
    }
    Ok(Number { value, end: at + 1 })
}

// A count that is no less than `least`. Its characters are taken as far as some such count has them.
fn number_at(text: &[u8], at: usize, least: u8) -> Result<Number, Fault>
    requires { least ≤ largest_count }
    ensures { NumberAt text.now at all least result }
{
    let Some(first) = digit_at(text, at, LAST_DIGIT) else {
        return Err(Fault { place: at });
    };
    if first == ONE {
        return teen_at(text, at + 1, least);
    }
    if first < least {
        return Err(Fault { place: at });
    }
    Ok(Number {
        value: first,
        end: at + 1,
    })
}

// The second count, which is no less than the first, and what closes it.
fn high_at(text: &[u8], at: usize, low: u8) -> Result<Counted, Fault>
    requires { low ≤ largest_count }
    ensures { HighAt text.now at low result }
{
    let high = number_at(text, at, low)?;
    if !stands(text, high.end, b']') {
        return Err(Fault { place: high.end });
    }
    Ok(Counted {
        low,
        high: high.value,
        end: high.end + 1,
    })
}

// Both counts and what closes them.
pub fn counts_at(text: &[u8], at: usize) -> Result<Counted, Fault>
    ensures { CountedAt text.now at result }
{
    let low = number_at(text, at, 0)?;
    let second = word_end(text, low.end, &DOTS)?;
    high_at(text, second, low.value)
}
