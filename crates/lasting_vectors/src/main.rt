// Prints which states of a model last, and rulecheck's line for it: models with dead ends, and the same with a way on.
#![tactic(auto)]

use std::io;

// p0[*];p1 with its length; the model stands behind it.
const RULE: [u8; 9] = *b"\x08\x12\x17\x10\x01\x00\x10\x01\x01";

const RULE_ROOM: usize = 9;

const STATES: usize = 64;

const RECORD: usize = 11;

const INPUT_ROOM: usize = RULE_ROOM + RECORD * STATES;

// The states that last, in rising order, or the refusal.
fn lasting(rt: &impl Print, model: &[u8]) -> io::Result<()> {
    match lasting::lasting(model) {
        Ok(found) => {
            print!(rt; "{} states, these last:", found.states)?;
            for k in bits::rising::members(found.set) {
                print!(rt; " {k}")?;
            }
            println!(rt; "")
        }
        Err(x) => println!(rt; "refused {} at {}", x.number(), x.place()),
    }
}

fn line(rt: &impl Print, input: &[u8]) -> io::Result<()> {
    let mut out = [0u8; lines::LINE_ROOM];
    let long = lines::line(input, &mut out);
    if long <= out.len() {
        rt.write_all(&out[..long])?;
    }
    println!(rt; "")
}

// Both, for the first n states of the model behind the rule.
fn show(rt: &impl Print, name: &str, input: &[u8], n: usize) -> io::Result<()> {
    print!(rt; "{name}\n  ")?;
    if n <= STATES {
        let end = RULE_ROOM + RECORD * n;
        if end <= input.len() {
            lasting(rt, &input[RULE_ROOM..end])?;
            print!(rt; "  ")?;
            line(rt, &input[..end])?;
        }
    }
    Ok(())
}

fn put(input: &mut [u8], at: usize, b: u8) {
    if at < input.len() {
        input[at] = b;
    }
}

// State k with its letter and its flag, and no successors.
fn put_state(input: &mut [u8], k: usize, letter: u8, flag: u8) {
    if k < STATES {
        let at = RULE_ROOM + RECORD * k;
        put(input, at, 0x20);
        put(input, at + 1, letter);
        put(input, at + 2, flag);
    }
}

// State k goes to t, and to no other in the same eight.
fn put_way(input: &mut [u8], k: usize, t: usize) {
    if k < STATES && t < STATES {
        let at = RULE_ROOM + RECORD * k + 3;
        put(input, at + t / 8, 1u8 << (t % 8));
    }
}

// All states in a row from 0 on, with p0.
fn put_chain(input: &mut [u8]) {
    for k in 0..STATES {
        put_state(input, k, 1, 0);
        put_way(input, k, k + 1);
    }
}

// Its last state has p1 and no way on; then one to itself.
fn chain(rt: &impl Print, input: &mut [u8]) -> io::Result<()> {
    put_chain(input);
    put_state(input, 0, 1, 1);
    put_state(input, STATES - 1, 2, 0);
    show(rt, "a chain of 64 states into a dead end", input, STATES)?;
    put_way(input, STATES - 1, STATES - 1);
    show(rt, "the same with a loop at its end", input, STATES)?;
    show(
        rt,
        "without its last state, to which the one before it goes",
        input,
        STATES - 1,
    )
}

// State 0 goes to 1, which is a dead end, and to 2, which goes to 3 and so to 2 again.
fn fork(rt: &impl Print, input: &mut [u8]) -> io::Result<()> {
    put_state(input, 0, 1, 1);
    put_state(input, 1, 2, 1);
    put_state(input, 2, 1, 0);
    put_state(input, 3, 2, 0);
    put(input, RULE_ROOM + 3, 0x06);
    put_way(input, 2, 3);
    put_way(input, 3, 2);
    show(
        rt,
        "a dead end that is initial and has p1, and a longer way to p1",
        input,
        4,
    )
}

fn alone(rt: &impl Print, input: &mut [u8]) -> io::Result<()> {
    put_state(input, 0, 2, 1);
    put_way(input, 0, 0);
    show(rt, "a state that goes to itself alone", input, 1)?;
    show(rt, "no states", input, 0)
}

fn with_rule(input: &mut [u8]) {
    for (place, b) in input.iter_mut().zip(RULE) {
        *place = b;
    }
}

fn main(rt: HostRuntime) -> io::Result<()> {
    let mut first = [0u8; INPUT_ROOM];
    with_rule(&mut first);
    chain(&rt, &mut first)?;
    let mut second = [0u8; INPUT_ROOM];
    with_rule(&mut second);
    fork(&rt, &mut second)?;
    let mut third = [0u8; INPUT_ROOM];
    with_rule(&mut third);
    alone(&rt, &mut third)
}
