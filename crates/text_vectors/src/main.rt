// Prints what reading and writing texts come to: every form, every refusal, and the places where a text breaks.
#![tactic(auto)]

use std::io;
use text_lines::LINE_ROOM;
use texts::LONGEST_TEXT;

// More than the texts here take.
const TEXT_ROOM: usize = 100;

// 254 times not: 257 bytes.
const MANY_BYTES: [u8; 256] =
    *b"!!!!!!!!!!!!!!!!!!!!!!!!!!!!!!!!!!!!!!!!!!!!!!!!!!!!!!!!!!!!!!!!!!!!!!!!!!!!!!!!!!!!!!!!!!!!!!!!!!!!!!!!!!!!!!!!!!!!!!!!!!!!!!!!!!!!!!!!!!!!!!!!!!!!!!!!!!!!!!!!!!!!!!!!!!!!!!!!!!!!!!!!!!!!!!!!!!!!!!!!!!!!!!!!!!!!!!!!!!!!!!!!!!!!!!!!!!!!!!!!!!!!!!!!!!!!!!p0";

// 32 letters in a row weigh 64.
const WEIGHS_64: [u8; 157] =
    *b"{p0;{p0;{p0;{p0;{p0;{p0;{p0;{p0;{p0;{p0;{p0;{p0;{p0;{p0;{p0;{p0;{p0;{p0;{p0;{p0;{p0;{p0;{p0;{p0;{p0;{p0;{p0;{p0;{p0;{p0;{p0;p0}}}}}}}}}}}}}}}}}}}}}}}}}}}}}}}";

// 33 letters weigh 66.
const WEIGHS_66: [u8; 162] =
    *b"{p0;{p0;{p0;{p0;{p0;{p0;{p0;{p0;{p0;{p0;{p0;{p0;{p0;{p0;{p0;{p0;{p0;{p0;{p0;{p0;{p0;{p0;{p0;{p0;{p0;{p0;{p0;{p0;{p0;{p0;{p0;{p0;p0}}}}}}}}}}}}}}}}}}}}}}}}}}}}}}}}";

// {p0;{{p1}[*];p2}}
const EXAMPLE: [u8; 12] = *b"\x12\x10\x01\x00\x12\x17\x10\x01\x01\x10\x01\x02";

// Every kind once.
const EVERY_KIND: [u8; 31] =
    *b"\x12\x13\x14\x15\x16\x17\x18\x11\x10\x01\x00\x10\x01\x01\x10\x01\x02\x10\x01\x03\x10\x04\x05\x01\x04\x06\x01\x05\x05\x02\x03";

fn refused(rt: &impl Print, number: u64, place: usize) -> io::Result<()> {
    println!(rt; "refused {number} at {place}")
}

// The line of a text.
fn show(rt: &impl Print, text: &[u8]) -> io::Result<()> {
    let mut out = [0u8; LINE_ROOM];
    let long = text_lines::line(text, &mut out);
    if long <= out.len() {
        rt.write_all(&out[..long])?;
    }
    Ok(())
}

// How much is written to this output, or the refusal.
fn read_into(rt: &impl Print, text: &[u8], out: &mut [u8]) -> io::Result<()> {
    match texts::read_text(text, out) {
        Ok(given) => println!(rt; "bytes {} weight {}", given.long, given.rule.weight),
        Err(x) => refused(rt, x.number(), x.place()),
    }
}

// The text of a rule's bytes, or the refusal.
fn write_back(rt: &impl Print, rule: &[u8], out: &mut [u8]) -> io::Result<()> {
    let answer = texts::write_text(rule, out);
    match answer {
        Ok(given) => {
            if given.long <= out.len() {
                rt.write_all(&out[..given.long])?;
            }
            println!(rt; "")?;
        }
        Err(x) => refused(rt, x.number(), x.place())?,
    }
    Ok(())
}

fn forms(rt: &impl Print) -> io::Result<()> {
    show(rt, b"p0")?;
    show(rt, b"p5")?;
    show(rt, b"true")?;
    show(rt, b"false")?;
    show(rt, b"!p1")?;
    show(rt, b"(p0&p1)")?;
    show(rt, b"(p0|!(p2&true))")?;
    show(rt, b"[*0]")?;
    show(rt, b"{p0;p1}")?;
    show(rt, b"{p0:p1}")?;
    show(rt, b"{p0|p1}")?;
    show(rt, b"{p0&p1}")?;
    show(rt, b"{p0&&p1}")?;
    show(rt, b"{p0}[*]")?;
    show(rt, b"{p0}[+]")?;
    show(rt, b"{p0;{{p1}[*];p2}}")?;
    show(rt, b"p0\n")?;
    show(rt, &WEIGHS_64)
}

// Each is refused at the first character that no rule text has there.
fn broken(rt: &impl Print) -> io::Result<()> {
    show(rt, b"")?;
    show(rt, b"p0x")?;
    show(rt, b"{p0}")?;
    show(rt, b"{p0&&&p1}")?;
    show(rt, b"(p0&&p1)")?;
    show(rt, b"[*]")?;
    show(rt, b"tru")?;
    show(rt, b"p6")?;
    show(rt, b"{p0}[*]x")?;
    show(rt, b"{p0&&")?;
    show(rt, b" p0")?;
    show(rt, b"{p0; p1}")?;
    show(rt, b"p0\n\n")?;
    show(rt, b"\xff")?;
    show(rt, b"{p0;p1")?;
    show(rt, b"{{p0;p1}[+")?;
    show(rt, b"(p0;p1)")?;
    show(rt, b"{true:falsy}")?;
    show(rt, &[b'{'; LONGEST_TEXT])?;
    show(rt, &[b'!'; LONGEST_TEXT])?;
    show(rt, &[b'('; LONGEST_TEXT])
}

// A text with counts: its bytes, and these bytes written as a text again.
fn counted(rt: &impl Print, text: &[u8], bytes: &mut [u8]) -> io::Result<()> {
    show(rt, text)?;
    let answer = texts::read_text(text, bytes);
    match answer {
        Ok(given) => {
            if given.long <= bytes.len() {
                write_back(rt, &bytes[..given.long], &mut [0u8; TEXT_ROOM])?;
            }
        }
        Err(x) => refused(rt, x.number(), x.place())?,
    }
    Ok(())
}

// From three to five expiries, in a row and wherever they stand; the smallest and the largest counts; a formula and a rule as operand.
fn counts(rt: &impl Print) -> io::Result<()> {
    counted(rt, b"{p0}[*3..5]", &mut [0u8; TEXT_ROOM])?;
    counted(rt, b"p0[=3..5]", &mut [0u8; TEXT_ROOM])?;
    counted(rt, b"{p0}[*0..0]", &mut [0u8; TEXT_ROOM])?;
    counted(rt, b"p0[=0..0]", &mut [0u8; TEXT_ROOM])?;
    counted(rt, b"{p0}[*15..15]", &mut [0u8; TEXT_ROOM])?;
    counted(rt, b"p0[=15..15]", &mut [0u8; TEXT_ROOM])?;
    counted(rt, b"p0[=1..1]", &mut [0u8; TEXT_ROOM])?;
    counted(rt, b"p0[=1..10]", &mut [0u8; TEXT_ROOM])?;
    counted(rt, b"p0[=9..12]", &mut [0u8; TEXT_ROOM])?;
    counted(rt, b"{[*0]}[*10..11]", &mut [0u8; TEXT_ROOM])?;
    counted(rt, b"!(p0|p1)[=2..14]", &mut [0u8; TEXT_ROOM])?;
    counted(
        rt,
        b"{{{p0}[*1..2];p1[=0..1]}}[*0..1]",
        &mut [0u8; TEXT_ROOM],
    )
}

// Counts go on as far as some pair of counts has their characters.
fn broken_counts(rt: &impl Print) -> io::Result<()> {
    show(rt, b"p0[")?;
    show(rt, b"p0[=")?;
    show(rt, b"p0[*")?;
    show(rt, b"p0[=2..1")?;
    show(rt, b"p0[=2..1]")?;
    show(rt, b"p0[=3..2]")?;
    show(rt, b"p0[=16")?;
    show(rt, b"p0[=01")?;
    show(rt, b"p0[=12..11]")?;
    show(rt, b"p0[=2..01]")?;
    show(rt, b"p0[=2..16]")?;
    show(rt, b"p0[=2]")?;
    show(rt, b"p0[=2.]")?;
    show(rt, b"p0[=2...]")?;
    show(rt, b"p0[=..]")?;
    show(rt, b"p0[=1..1")?;
    show(rt, b"p0[=1..1x")?;
    show(rt, b"p0[=0..9]]")?;
    show(rt, b"p0[=0..9][=0..9]")?;
    show(rt, b"[*0][")?;
    show(rt, b"{p0}[*0]")?;
    show(rt, b"{p0}[*2..1]")?;
    show(rt, b"{p0}[=1..2]")?;
    show(rt, b"{p0[=1..2]}")?;
    show(rt, b"(p0[=1..2]&p1)")?;
    show(rt, b"{p0}[*1..2")
}

fn limits(rt: &impl Print) -> io::Result<()> {
    show(rt, &[b'{'; 1281])?;
    show(rt, &MANY_BYTES)?;
    show(rt, &WEIGHS_66)?;
    read_into(rt, b"p0", &mut [0u8; 2])?;
    read_into(rt, b"p0", &mut [0u8; 3])?;
    read_into(rt, &WEIGHS_66, &mut [0u8; 0])?;
    read_into(rt, b"p6", &mut [0u8; 0])
}

fn written(rt: &impl Print) -> io::Result<()> {
    write_back(rt, &EXAMPLE, &mut [0u8; TEXT_ROOM])?;
    write_back(rt, &EVERY_KIND, &mut [0u8; TEXT_ROOM])?;
    write_back(rt, b"\x11", &mut [0u8; TEXT_ROOM])?;
    write_back(rt, b"\x10\x01\x06", &mut [0u8; TEXT_ROOM])?;
    write_back(rt, b"", &mut [0u8; TEXT_ROOM])?;
    write_back(rt, b"\x11", &mut [0u8; 3])?;
    write_back(rt, b"\x11", &mut [0u8; 4])
}

fn main(rt: HostRuntime) -> io::Result<()> {
    forms(&rt)?;
    broken(&rt)?;
    counts(&rt)?;
    broken_counts(&rt)?;
    limits(&rt)?;
    written(&rt)
}
