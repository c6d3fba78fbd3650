// The line that says what reading a rule's text comes to: the rule's bytes as hexadecimal numbers of two digits with blanks between, or `refused N at P`.
#![tactic(auto)]

ghost use Rattle.std.specs.Prelude.{◌+◌, ◌*◌, ◌≤◌, ◌<◌, ◌≡◌, ◌∷◌, length};
ghost use Rattle.texts.specs.Answer.{told};
ghost use Rattle.writing.specs.Wrote.{Wrote};
ghost use Rattle.text_lines.specs.Hexadecimal.{hex_digit_of, hex_of, spaced, bytes_text};
ghost use Rattle.text_lines.specs.Input.{text_in_of};
ghost use Rattle.text_lines.specs.Line.{TextFits, Put, LineRight};

use texts::{Given, TextRefusal};
use writing::{front, past, put_byte, put_refused};

// A rule has at most 255 bytes, so that no line is longer.
pub const LINE_ROOM: usize = 1024;

const RULE_BYTES: usize = 255;

const NEWLINE: u8 = 10;

const BLANK: u8 = 32;

// The text of an input: a newline that closes it is no part of it.
fn text_in(input: &[u8]) -> &[u8]
    ensures { result.now ≡ text_in_of input.now }
{
    let long = input.len();
    if long == 0 {
        return input;
    }
    let last = long - 1;
    if input[last] == NEWLINE {
        return front(input, last);
    }
    input
}

// The character of a hexadecimal digit.
fn hex_digit(d: u8) -> u8
    requires { d < 16 }
    ensures { result ≡ hex_digit_of d }
{
    if d < 10 {
        return b'0' + d;
    }
    b'A' + (d - 10)
}

fn put_hex(out: &mut [u8], at: usize, byte: u8) -> usize
    requires { at + 2 ≤ length out.old }
    ensures { Wrote (hex_of byte) out.old at out.new result }
{
    let low = put_byte(out, at, hex_digit(byte / 16));
    put_byte(out, low, hex_digit(byte % 16))
}

// A byte, a blank before it.
fn put_next(out: &mut [u8], at: usize, byte: u8) -> usize
    requires { at + 3 ≤ length out.old }
    ensures { Wrote (32 ∷ hex_of byte) out.old at out.new result }
{
    let digits = put_byte(out, at, BLANK);
    put_hex(out, digits, byte)
}

// Bytes, a blank before each.
fn put_spaced(out: &mut [u8], at: usize, bytes: &[u8]) -> usize
    requires { at + 3 * length bytes.now ≤ length out.old }
    ensures { Wrote (spaced bytes.now) out.old at out.new result }
{
    let mut end = at;
    for &byte in bytes {
        end = put_next(out, end, byte);
    }
    end
}

// Bytes, a blank between each and the next.
fn put_bytes(out: &mut [u8], bytes: &[u8]) -> usize
    requires { 3 * length bytes.now ≤ length out.old }
    ensures { Wrote (bytes_text bytes.now) out.old 0 out.new result }
{
    if bytes.len() == 0 {
        return 0;
    }
    let first = put_hex(out, 0, bytes[0]);
    put_spaced(out, first, past(bytes, 1))
}

// What reading came to: the bytes that were written, or the refusal.
fn put_answer(out: &mut [u8], answer: Result<Given, TextRefusal>, bytes: &[u8]) -> usize
    requires { TextFits (told answer) bytes.now out.old }
    ensures { Put (told answer) bytes.now out.old out.new result }
{
    match answer {
        Ok(given) => put_bytes(out, front(bytes, given.long)),
        Err(x) => put_refused(out, x.number(), x.place()),
    }
}

// Writes the line for an input, and the newline that closes it, to the beginning of `out` and answers its length; 0 where `out` is shorter than 1,024 bytes.
pub fn line(input: &[u8], out: &mut [u8]) -> usize
    ensures { LineRight input.now out.old out.new result }
{
    if out.len() < LINE_ROOM {
        return 0;
    }
    let mut bytes = [0u8; RULE_BYTES];
    let answer = texts::read_text(text_in(input), &mut bytes);
    let end = put_answer(out, answer, &bytes);
    put_byte(out, end, NEWLINE)
}
