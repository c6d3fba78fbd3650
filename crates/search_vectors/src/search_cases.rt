// The search: what it finds, what it counts, and that it leaves alone what lies past its entries.
use crate::bytes::{front, put, put_many};
use crate::model_bytes::{put_full, put_ring};
use crate::show;
use passes::inner::Searched;
use search::{Answered, Refusal};
use std::io;

// A run of more states is not printed state by state.
const PRINTED: usize = 16;

// The three-state model, which ends in a dead end; the last way to it is from state 1.
const THREE: [u8; 33] =
    *b"\x20\x01\x01\x02\x00\x00\x00\x00\x00\x00\x00\x20\x02\x00\x06\x00\x00\x00\x00\x00\x00\x00\x20\x04\x00\x00\x00\x00\x00\x00\x00\x00\x00";

const WITHOUT_WAY: [u8; 33] =
    *b"\x20\x01\x01\x02\x00\x00\x00\x00\x00\x00\x00\x20\x02\x00\x02\x00\x00\x00\x00\x00\x00\x00\x20\x04\x00\x00\x00\x00\x00\x00\x00\x00\x00";

const WITHOUT_INITIAL: [u8; 33] =
    *b"\x20\x01\x00\x02\x00\x00\x00\x00\x00\x00\x00\x20\x02\x00\x06\x00\x00\x00\x00\x00\x00\x00\x20\x04\x00\x00\x00\x00\x00\x00\x00\x00\x00";

// p0, and then one of two states with p1, in which it stays.
const FORK: [u8; 33] =
    *b"\x20\x01\x01\x06\x00\x00\x00\x00\x00\x00\x00\x20\x02\x00\x02\x00\x00\x00\x00\x00\x00\x00\x20\x02\x00\x04\x00\x00\x00\x00\x00\x00\x00";

// p0, and then a state with p2 or a later one with p1, in which it stays.
const CROSSED: [u8; 33] =
    *b"\x20\x01\x01\x06\x00\x00\x00\x00\x00\x00\x00\x20\x04\x00\x02\x00\x00\x00\x00\x00\x00\x00\x20\x02\x00\x04\x00\x00\x00\x00\x00\x00\x00";

fn found(rt: &impl Print, run: &[u8], long: usize, pairs: usize) -> io::Result<()> {
    print!(rt; "found {long} pairs {pairs}")?;
    if long <= PRINTED {
        print!(rt; ":")?;
        for state in run.iter().take(long) {
            print!(rt; " {state}")?;
        }
    }
    println!(rt; "")
}

fn searched(rt: &impl Print, answer: Searched, run: &[u8]) -> io::Result<()> {
    match answer.found {
        Some(long) => found(rt, run, long, answer.pairs),
        None => println!(rt; "none pairs {}", answer.pairs),
    }
}

fn answered(rt: &impl Print, answer: Result<Answered, Refusal>, run: &[u8]) -> io::Result<()> {
    match answer {
        Ok(
            Answered {
                searched: x,
                rule: _,
            },
        ) => searched(rt, x, run),
        Err(x) => show::refused(rt, x.number(), x.place()),
    }
}

// Whether the entries from a to b all are v.
fn are<T: Copy + PartialEq>(s: &[T], a: usize, b: usize, v: T) -> bool {
    s.iter().take(b).skip(a).all(|x| *x == v)
}

// How many entries of the output a search may write.
fn written(answer: Searched) -> usize {
    answer.found.unwrap_or(0)
}

// The working slices are 0 in their first 4,096 entries, and all that lies past what was written is 7 as before.
fn kept(table: &[u64], marks: &[u16], useful: &[u16], run: &[u8], n: usize) -> bool {
    are(table, 4096, 4100, 7)
        && are(marks, 0, 4096, 0)
        && are(useful, 0, 4096, 0)
        && are(marks, 4096, 4100, 7)
        && are(useful, 4096, 4100, 7)
        && are(run, n, 4100, 7)
}

// Nothing was written at all.
fn untouched(table: &[u64], marks: &[u16], useful: &[u16], run: &[u8]) -> bool {
    are(table, 0, 4100, 7)
        && are(marks, 0, 4100, 7)
        && are(useful, 0, 4100, 7)
        && are(run, 0, 4100, 7)
}

fn left_as_promised(
    answer: Result<Answered, Refusal>,
    table: &[u64],
    marks: &[u16],
    useful: &[u16],
    run: &[u8],
) -> bool {
    match answer {
        Ok(
            Answered {
                searched: x,
                rule: _,
            },
        ) => kept(table, marks, useful, run, written(x)),
        Err(_) => untouched(table, marks, useful, run),
    }
}

// Each search is lent slices of its own that are longer than it asks for, filled with 7.
fn search(rt: &impl Print, name: &str, rule: &[u8], model: &[u8]) -> io::Result<()> {
    let mut table = [7u64; 4100];
    let mut marks = [7u16; 4100];
    let mut useful = [7u16; 4100];
    let mut run = [7u8; 4100];
    let answer = search::search(rule, model, &mut table, &mut marks, &mut useful, &mut run);
    print!(rt; "{name}: ")?;
    answered(rt, answer, &run)?;
    print!(rt; "  lent slices as promised: ")?;
    show::yes_or_no(rt, left_as_promised(answer, &table, &marks, &useful, &run))
}

fn small(rt: &impl Print) -> io::Result<()> {
    search(
        rt,
        "three states",
        b"\x12\x10\x01\x00\x12\x17\x10\x01\x01\x10\x01\x02",
        &THREE,
    )?;
    search(
        rt,
        "three states, without the way to the last",
        b"\x12\x10\x01\x00\x12\x17\x10\x01\x01\x10\x01\x02",
        &WITHOUT_WAY,
    )?;
    search(
        rt,
        "no states",
        b"\x12\x10\x01\x00\x12\x17\x10\x01\x01\x10\x01\x02",
        b"",
    )?;
    search(
        rt,
        "no initial state",
        b"\x12\x10\x01\x00\x12\x17\x10\x01\x01\x10\x01\x02",
        &WITHOUT_INITIAL,
    )?;
    search(rt, "a rule of the empty sequence alone", b"\x11", &THREE)?;
    search(
        rt,
        "a dead end, which closes no run",
        b"\x10\x01\x00",
        b"\x20\x01\x01\x00\x00\x00\x00\x00\x00\x00\x00",
    )?;
    search(
        rt,
        "two runs that are equally short",
        b"\x12\x10\x01\x00\x10\x01\x01",
        &FORK,
    )?;
    search(
        rt,
        "the set of table states is needed",
        b"\x14\x12\x10\x01\x00\x10\x01\x01\x12\x10\x01\x00\x10\x01\x02",
        &CROSSED,
    )
}

// {31 times true}[*];p0 meets the ring's only p0 for the first time after 63 rounds of 31 states.
fn ring(rt: &impl Print, rule: &mut [u8], model: &mut [u8]) -> io::Result<()> {
    let n = put(rule, 0, b"\x12\x17");
    let n = put_many(rule, n, b"\x12\x10\x02", 30);
    let n = put(rule, n, b"\x10\x02\x10\x01\x00");
    let m = put_ring(model);
    search(rt, "a ring of 64 states", front(rule, n), front(model, m))
}

fn full(rt: &impl Print, model: &mut [u8]) -> io::Result<()> {
    let m = put_full(model);
    search(
        rt,
        "all of 64 states",
        b"\x12\x10\x01\x00\x12\x17\x10\x01\x01\x10\x01\x02",
        front(model, m),
    )?;
    search(
        rt,
        "all of 64 states, by a rule that nothing matches",
        b"\x12\x10\x02\x12\x16\x10\x01\x00\x10\x04\x01\x00\x10\x02",
        front(model, m),
    )
}

// The rule's refusals come before the model's, and both before 21.
fn refusals(rt: &impl Print) -> io::Result<()> {
    search(rt, "no rule and no model", b"", b"\x00")?;
    search(rt, "no model", b"\x11", b"\x00")?;
    let mut few = [0u64; 4095];
    let mut marks = [0u16; 4096];
    let mut useful = [0u16; 4096];
    let mut run = [0u8; 4096];
    print!(rt; "a table slice that is one entry short: ")?;
    answered(
        rt,
        search::search(b"\x11", b"", &mut few, &mut marks, &mut useful, &mut run),
        &run,
    )
}

pub fn run(rt: &impl Print, rule: &mut [u8], model: &mut [u8]) -> io::Result<()> {
    small(rt)?;
    ring(rt, rule, model)?;
    full(rt, model)?;
    refusals(rt)
}
