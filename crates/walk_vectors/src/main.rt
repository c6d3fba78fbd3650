// Steps walkers in both forms, by value and where they stand, and prints what they hold: first matches at 0, at 1 and
// late, several and none, the count at its largest, and every refusal; the file stdout holds what should come out.
#![tactic(auto)]

ghost use Rattle.std.specs.Prelude.{◌≡◌};
ghost use Rattle.walkers.specs.Steps.{told, step_of};

use std::io;
use tables::Tabled;
use walkers::{Refusal, Step, Walker};

// What a walker holds; its set as a number, bit q for state q.
fn show(rt: &impl Print, w: Walker) -> io::Result<()> {
    let first = if w.matched {
        "first match at"
    } else {
        "no match,"
    };
    print!(rt; "taken {}, set {}, {first} {}", w.taken, w.set, w.first)
}

// The walker stepped where it stands, in a record of this function's own: both forms do the same.
fn lent(mut walker: Walker, table: &[u64], letter: u8) -> Step
    ensures { told result ≡ step_of table.now walker letter }
{
    let answer = walkers::step_lent(&mut walker, table, letter);
    Step { walker, answer }
}

fn say(rt: &impl Print, answer: Result<bool, Refusal>) -> io::Result<()> {
    match answer {
        Ok(true) => print!(rt; "yes"),
        Ok(false) => print!(rt; "no"),
        Err(x) => print!(rt; "refused {} at {}", x.number(), x.place()),
    }
}

// One step in both forms, and the walker after it.
fn step(rt: &impl Print, table: &[u64], w: Walker, letter: u8) -> io::Result<Walker> {
    let s = w.step(table, letter);
    print!(rt; "  letter {letter}: ")?;
    say(rt, s.answer)?;
    print!(rt; "; ")?;
    show(rt, s.walker)?;
    if s == lent(w, table, letter) {
        println!(rt; "; lent the same")?;
    } else {
        println!(rt; "; LENT SOMETHING ELSE")?;
    }
    Ok(s.walker)
}

// A walker before its first step here.
fn begin(rt: &impl Print, name: &str, w: Walker) -> io::Result<Walker> {
    print!(rt; "{name}: ")?;
    show(rt, w)?;
    println!(rt; "")?;
    Ok(w)
}

// {p0}[*] accepts no letters at all: it has matched at 0, and what comes later changes nothing of that.
fn matched_at_0(rt: &impl Print, table: &[u64], finals: u64) -> io::Result<()> {
    let w = begin(rt, "{p0}[*]", Walker::start(finals))?;
    let w = step(rt, table, w, 1)?;
    let w = step(rt, table, w, 0)?;
    step(rt, table, w, 1)?;
    Ok(())
}

// {{p0}[+]|{p1;p2}} at 1, and a second time at 2; and never.
fn matched_at_1(rt: &impl Print, table: &[u64], finals: u64) -> io::Result<()> {
    let w = begin(rt, "{{p0}[+]|{p1;p2}}, twice", Walker::start(finals))?;
    let w = step(rt, table, w, 1)?;
    let w = step(rt, table, w, 1)?;
    step(rt, table, w, 4)?;
    let w = begin(rt, "{{p0}[+]|{p1;p2}}, never", Walker::start(finals))?;
    let w = step(rt, table, w, 2)?;
    let w = step(rt, table, w, 2)?;
    step(rt, table, w, 4)?;
    Ok(())
}

// {p0;{{p1}[*];p2}} at 5, with steps refused on the way.
fn matched_late(rt: &impl Print, table: &[u64], finals: u64) -> io::Result<()> {
    let w = begin(rt, "{p0;{{p1}[*];p2}}, late", Walker::start(finals))?;
    let w = step(rt, table, w, 1)?;
    let w = step(rt, table, w, 64)?;
    let w = step(rt, table, w, 2)?;
    let w = step(rt, shortened(table), w, 4)?;
    let w = step(rt, table, w, 2)?;
    let w = step(rt, table, w, 2)?;
    let w = step(rt, table, w, 4)?;
    step(rt, table, w, 4)?;
    Ok(())
}

// A table that is one entry short.
fn shortened(table: &[u64]) -> &[u64] {
    if 4095 <= table.len() {
        &table[..4095]
    } else {
        table
    }
}

// The count near its largest: one letter is still taken, and may be the first match; then 25, after 21 and 22.
fn full(rt: &impl Print, table: &[u64], finals: u64) -> io::Result<()> {
    let w = begin(
        rt,
        "one letter before the last count",
        Walker::at(1, finals, 4294967294, 0, false),
    )?;
    let w = step(rt, table, w, 1)?;
    let w = step(rt, table, w, 1)?;
    let w = step(rt, table, w, 64)?;
    step(rt, shortened(table), w, 64)?;
    let w = begin(
        rt,
        "matched before",
        Walker::at(1, finals, 4294967294, 7, true),
    )?;
    let w = step(rt, table, w, 1)?;
    step(rt, table, w, 1)?;
    let w = begin(
        rt,
        "nowhere to go",
        Walker::at(0, finals, 4294967295, 0, false),
    )?;
    step(rt, table, w, 0)?;
    Ok(())
}

// Walkers that no start made are stepped as they stand: in a final state without a match, a first match without a mark.
fn unusual(rt: &impl Print, table: &[u64], finals: u64) -> io::Result<()> {
    let w = begin(
        rt,
        "in a final state, no match",
        Walker::at(finals, finals, 3, 0, false),
    )?;
    let w = step(rt, table, w, 32)?;
    let w = begin(
        rt,
        "a first match without its mark",
        Walker::at(1, w.finals, 3, 9, false),
    )?;
    let w = step(rt, table, w, 2)?;
    step(rt, table, w, 4)?;
    Ok(())
}

fn run(rt: &impl Print, table: &mut [u64]) -> io::Result<()> {
    if let Ok(Tabled { rule: _, finals }) = tables::build(b"\x17\x10\x01\x00", table) {
        matched_at_0(rt, table, finals)?;
    }
    if let Ok(Tabled { rule: _, finals }) = tables::build(
        b"\x14\x18\x10\x01\x00\x12\x10\x01\x01\x10\x01\x02",
        table,
    ) {
        matched_at_1(rt, table, finals)?;
        full(rt, table, finals)?;
        unusual(rt, table, finals)?;
    }
    if let Ok(Tabled { rule: _, finals }) = tables::build(
        b"\x12\x10\x01\x00\x12\x17\x10\x01\x01\x10\x01\x02",
        table,
    ) {
        matched_late(rt, table, finals)?;
    }
    Ok(())
}

fn main(rt: HostRuntime) -> io::Result<()> {
    let mut table = [0u64; 4096];
    run(&rt, &mut table)
}
