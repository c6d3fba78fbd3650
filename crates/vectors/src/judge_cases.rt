// The plain judge: the paper's sequences, and rules that would keep a judge without memory busy for hours.
use crate::bytes::{front, put, put_many};
use crate::show;
use judge::{Judged, Refusal};
use std::io;

fn answered(rt: &impl Print, answer: Result<Judged, Refusal>) -> io::Result<()> {
    match answer {
        Ok(j) => show::yes_or_no(rt, j.accepts),
        Err(x) => show::refused(rt, x.number(), x.place()),
    }
}

fn judged(rt: &impl Print, name: &str, rule: &[u8], letters: &[u8]) -> io::Result<()> {
    print!(rt; "{name}: ")?;
    answered(rt, judge::judge(rule, letters))
}

fn letters(rt: &impl Print) -> io::Result<()> {
    judged(rt, "empty on []", b"\x11", b"")?;
    judged(rt, "empty on [0]", b"\x11", b"\x00")?;
    judged(rt, "p0 on [1]", b"\x10\x01\x00", b"\x01")?;
    judged(rt, "p0 on []", b"\x10\x01\x00", b"")?;
    judged(rt, "p0 on [1 1]", b"\x10\x01\x00", b"\x01\x01")
}

fn pairs(rt: &impl Print) -> io::Result<()> {
    judged(rt, "p0:p1 on [3]", b"\x13\x10\x01\x00\x10\x01\x01", b"\x03")?;
    judged(
        rt,
        "p0:p1 on [1 2]",
        b"\x13\x10\x01\x00\x10\x01\x01",
        b"\x01\x02",
    )?;
    judged(
        rt,
        "p0;p1 on [1 2]",
        b"\x12\x10\x01\x00\x10\x01\x01",
        b"\x01\x02",
    )?;
    judged(rt, "p0;p1 on [3]", b"\x12\x10\x01\x00\x10\x01\x01", b"\x03")?;
    judged(
        rt,
        "p0 & {p0;p1} on [1 2]",
        b"\x15\x10\x01\x00\x12\x10\x01\x00\x10\x01\x01",
        b"\x01\x02",
    )?;
    judged(
        rt,
        "p0 & {p0;p1} on [1]",
        b"\x15\x10\x01\x00\x12\x10\x01\x00\x10\x01\x01",
        b"\x01",
    )?;
    judged(
        rt,
        "p0 && {p0;p1} on [1 2]",
        b"\x16\x10\x01\x00\x12\x10\x01\x00\x10\x01\x01",
        b"\x01\x02",
    )?;
    judged(rt, "empty[+] on []", b"\x18\x11", b"")?;
    judged(
        rt,
        "p0[*]:p0[*] on []",
        b"\x13\x17\x10\x01\x00\x17\x10\x01\x00",
        b"",
    )
}

fn refusals(rt: &impl Print) -> io::Result<()> {
    judged(
        rt,
        "17 letters that are none, by no rule",
        b"",
        b"\x40\x40\x40\x40\x40\x40\x40\x40\x40\x40\x40\x40\x40\x40\x40\x40\x40",
    )?;
    judged(
        rt,
        "17 letters that are none",
        b"\x11",
        b"\x40\x40\x40\x40\x40\x40\x40\x40\x40\x40\x40\x40\x40\x40\x40\x40\x40",
    )?;
    judged(rt, "two letters that are none", b"\x11", b"\x00\x40\xFF")
}

// 15 letters with p1 and one without it.
const LONG: [u8; 16] = *b"\x02\x02\x02\x02\x02\x02\x02\x02\x02\x02\x02\x02\x02\x02\x02\x00";

fn nested(rt: &impl Print, space: &mut [u8], name: &str, n: usize) -> io::Result<()> {
    let e = put_many(space, 0, b"\x17", n);
    let e = put(space, e, b"\x10\x01\x01");
    judged(rt, name, front(space, e), &LONG)
}

fn joined(rt: &impl Print, space: &mut [u8]) -> io::Result<()> {
    let e = put_many(space, 0, b"\x12\x17\x10\x01\x01", 31);
    let e = put(space, e, b"\x17\x10\x01\x01");
    judged(
        rt,
        "32 repetitions of p1 joined by ;",
        front(space, e),
        &LONG,
    )?;
    let e = put_many(space, 0, b"\x12\x17\x11", 62);
    let e = put(space, e, b"\x17\x11");
    judged(
        rt,
        "63 repetitions of the empty sequence joined by ;",
        front(space, e),
        &LONG,
    )
}

pub fn run(rt: &impl Print, space: &mut [u8]) -> io::Result<()> {
    letters(rt)?;
    pairs(rt)?;
    refusals(rt)?;
    nested(rt, space, "20 nested [*] of p1", 20)?;
    nested(rt, space, "198 nested [*] of p1", 198)?;
    nested(rt, space, "252 nested [*] of p1", 252)?;
    joined(rt, space)
}
