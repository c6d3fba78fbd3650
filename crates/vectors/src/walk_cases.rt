// Walks over built tables.
use crate::bytes::{front, put, put_many};
use crate::show;
use std::io;
use tables::Tabled;
use walkers::{Refusal, Walker};

// Whether a step or a sequence matches, or why there is none.
fn show_answer(rt: &impl Print, answer: Result<bool, Refusal>) -> io::Result<()> {
    match answer {
        Ok(matched) => show::yes_or_no(rt, matched),
        Err(x) => show::refused(rt, x.number(), x.place()),
    }
}

fn follow(
    rt: &impl Print,
    name: &str,
    table: &[u64],
    finals: u64,
    letters: &[u8],
) -> io::Result<()> {
    print!(rt; "{name}: ")?;
    show_answer(rt, walkers::follow(table, finals, letters))
}

// One step of the walker, and the walker after it.
fn step(rt: &impl Print, table: &[u64], w: Walker, letter: u8) -> io::Result<Walker> {
    let s = w.step(table, letter);
    let walker = s.walker;
    print!(rt; "  letter {letter}, in")?;
    show::members(rt, walker.set)?;
    print!(rt; ": ")?;
    show_answer(rt, s.answer)?;
    Ok(walker)
}

fn steps(rt: &impl Print, table: &[u64], finals: u64) -> io::Result<()> {
    println!(rt; "stepping p0;{{p1[*];p2}}")?;
    let w = Walker::start(finals);
    let w = step(rt, table, w, 1)?;
    let w = step(rt, table, w, 2)?;
    let w = step(rt, table, w, 64)?;
    let w = step(rt, shortened(table), w, 4)?;
    let w = step(rt, table, w, 6)?;
    step(rt, table, w, 2)?;
    Ok(())
}

// A table that is one entry short.
fn shortened(table: &[u64]) -> &[u64] {
    if 4095 <= table.len() {
        &table[..4095]
    } else {
        table
    }
}

// Some hundred letters: p0, then p1 as often as n says.
fn without_end(
    rt: &impl Print,
    space: &mut [u8],
    table: &[u64],
    finals: u64,
    n: usize,
) -> io::Result<usize> {
    let e = put(space, 0, b"\x01");
    let e = put_many(space, e, b"\x02", n);
    follow(
        rt,
        "  p0 and p1s without p2",
        table,
        finals,
        front(space, e),
    )?;
    Ok(e)
}

// The same with p2 after them, and with what is no letter after that.
fn with_end(
    rt: &impl Print,
    space: &mut [u8],
    table: &[u64],
    finals: u64,
    n: usize,
) -> io::Result<()> {
    let e = put(space, n, b"\x04");
    follow(rt, "  p0, p1s and p2", table, finals, front(space, e))?;
    let e = put(space, e, b"\x40");
    follow(rt, "  and then no letter", table, finals, front(space, e))
}

fn long(rt: &impl Print, space: &mut [u8], table: &[u64], finals: u64) -> io::Result<()> {
    println!(rt; "following p0;{{p1[*];p2}} over 300 letters and more")?;
    let n = without_end(rt, space, table, finals, 300)?;
    with_end(rt, space, table, finals, n)
}

fn worked(rt: &impl Print, space: &mut [u8], table: &mut [u64]) -> io::Result<()> {
    if let Ok(Tabled { rule: _, finals }) = tables::build(
        b"\x12\x10\x01\x00\x12\x17\x10\x01\x01\x10\x01\x02",
        table,
    ) {
        steps(rt, table, finals)?;
        long(rt, space, table, finals)?;
    }
    Ok(())
}

fn nothing(rt: &impl Print, table: &mut [u64]) -> io::Result<()> {
    if let Ok(Tabled { rule: _, finals }) = tables::build(b"\x17\x11", table) {
        follow(rt, "empty[*] on []", table, finals, b"")?;
    }
    Ok(())
}

pub fn run(rt: &impl Print, space: &mut [u8], table: &mut [u64]) -> io::Result<()> {
    worked(rt, space, table)?;
    nothing(rt, table)
}
