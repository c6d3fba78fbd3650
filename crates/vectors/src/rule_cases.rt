// The boundary cases of the rule reader.
use crate::bytes::{front, put, put_many};
use crate::show;
use std::io;

fn read(rt: &impl Print, name: &str, rule: &[u8]) -> io::Result<()> {
    print!(rt; "{name}: ")?;
    match rules::read_rule(rule) {
        Ok(known) => println!(rt; "weight {}", known.weight),
        Err(x) => show::refused(rt, x.number(), x.place()),
    }
}

// n letters joined by `;`, of weight 2n.
fn joined(space: &mut [u8], at: usize, n: usize) -> usize {
    if n == 0 {
        return at;
    }
    let last = put_many(space, at, b"\x12\x10\x02", n - 1);
    put(space, last, b"\x10\x02")
}

fn lengths(rt: &impl Print, space: &mut [u8]) -> io::Result<()> {
    read(rt, "no bytes", b"")?;
    let n = put_many(space, 0, b"\x11", 256);
    read(rt, "256 bytes", front(space, n))
}

fn weights(rt: &impl Print, space: &mut [u8]) -> io::Result<()> {
    let n = joined(space, 0, 32);
    read(rt, "32 letters joined by ;", front(space, n))?;
    let n = put(space, 0, b"\x14");
    let n = joined(space, n, 16);
    let n = joined(space, n, 16);
    read(rt, "weights 32 and 32 joined by |", front(space, n))
}

// A weight of 2^64 does not wrap.
fn largest_weight(rt: &impl Print, space: &mut [u8]) -> io::Result<()> {
    let n = put_many(space, 0, b"\x16", 63);
    let n = put_many(space, n, b"\x10\x02", 64);
    read(rt, "64 letters joined by &&", front(space, n))
}

fn nesting(rt: &impl Print, space: &mut [u8]) -> io::Result<()> {
    let n = put_many(space, 0, b"\x17", 254);
    let n = put(space, n, b"\x11");
    read(rt, "254 nested [*]", front(space, n))?;
    let n = put_many(space, 0, b"\x17", 255);
    read(rt, "255 nested [*] and no more", front(space, n))
}

fn refusals(rt: &impl Print) -> io::Result<()> {
    read(rt, "a letter without its formula", b"\x10")?;
    read(rt, "a proposition without its number", b"\x10\x01")?;
    read(rt, "; without its second operand", b"\x12\x11")?;
    read(rt, "kind 1B", b"\x1B")?;
    read(rt, "kind 07 for a formula", b"\x10\x04\x07")?;
    read(rt, "a formula for a rule", b"\x02")?;
    read(rt, "a rule for a formula", b"\x10\x05\x02\x11")?;
    read(rt, "proposition 6", b"\x10\x01\x06")?;
    read(rt, "bytes after the rule", b"\x17\x11\x11\x11")
}

// The weight is tested after all that reading can find.
fn heavy(rt: &impl Print, space: &mut [u8]) -> io::Result<()> {
    let n = put(space, 0, b"\x14\x11");
    let n = joined(space, n, 32);
    read(rt, "too heavy", front(space, n))?;
    let n = put(space, n, b"\x11");
    read(rt, "too heavy, with bytes after it", front(space, n))
}

pub fn run(rt: &impl Print, space: &mut [u8]) -> io::Result<()> {
    read(
        rt,
        "p0;{p1[*];p2}",
        b"\x12\x10\x01\x00\x12\x17\x10\x01\x01\x10\x01\x02",
    )?;
    lengths(rt, space)?;
    weights(rt, space)?;
    largest_weight(rt, space)?;
    nesting(rt, space)?;
    refusals(rt)?;
    heavy(rt, space)
}
