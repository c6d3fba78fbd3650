// Rules and sequences drawn by a counter that anyone can run again: the same seed gives the same cases everywhere.
use crate::bytes::{put, put_byte};

const MODULUS: u64 = 4294967296;

// A rule has at most this many operators, so that it is whole after twice as many units and one more.
const OPERATORS: usize = 6;

// What was drawn ends at `end`; the next draw goes on from the seed.
#[derive(Drop)]
pub struct Drawn {
    pub end: usize,
    pub seed: u64,
}

// A rule in the making: how many rules are still needed, and how many operators may still come.
#[derive(Drop)]
struct Growth {
    end: usize,
    seed: u64,
    need: usize,
    left: usize,
}

fn next(seed: u64) -> u64 {
    (seed % MODULUS * 1664525 + 1013904223) % MODULUS
}

// The upper half of the seed: its lower bits repeat soon.
fn upper(seed: u64) -> u64 {
    seed / 65536
}

fn operator(c: u64) -> u8 {
    match c {
        0 | 1 => 0x12,
        2 | 3 => 0x13,
        4 | 5 => 0x14,
        6 => 0x15,
        7 => 0x16,
        8 | 9 => 0x17,
        _ => 0x18,
    }
}

// How many rules are needed after the operator.
fn needed(need: usize, kind: u8) -> usize {
    if kind < 0x17 {
        if need <= OPERATORS {
            return need + 1;
        }
    }
    need
}

// A rule without operands of its own.
fn put_unit(space: &mut [u8], at: usize, c: u64) -> usize {
    match c {
        0 => put(space, at, b"\x11"),
        1 => put(space, at, b"\x10\x02"),
        2 => put(space, at, b"\x10\x01\x00"),
        3 => put(space, at, b"\x10\x01\x01"),
        4 => put(space, at, b"\x10\x04\x01\x00"),
        5 => put(space, at, b"\x10\x05\x01\x00\x04\x01\x01"),
        6 => put(space, at, b"\x10\x06\x01\x00\x01\x01"),
        _ => put(space, at, b"\x10\x01\x02"),
    }
}

fn grow_operator(space: &mut [u8], g: Growth, seed: u64, c: u64) -> Growth {
    let left = g.left;
    if left == 0 {
        return grow_unit(space, g, seed);
    }
    let kind = operator(c);
    let end = put_byte(space, g.end, kind);
    Growth {
        end,
        seed,
        need: needed(g.need, kind),
        left: left - 1,
    }
}

fn grow_unit(space: &mut [u8], g: Growth, seed: u64) -> Growth {
    let need = g.need;
    if need == 0 {
        return g;
    }
    let drawn = next(seed);
    let end = put_unit(space, g.end, upper(drawn) % 8);
    Growth {
        end,
        seed: drawn,
        need: need - 1,
        left: g.left,
    }
}

// One unit more, if one is needed.
fn grow(space: &mut [u8], g: Growth) -> Growth {
    let need = g.need;
    if need == 0 {
        return g;
    }
    let seed = next(g.seed);
    let c = upper(seed) % 16;
    if c < 12 {
        return grow_operator(space, g, seed, c);
    }
    grow_unit(space, g, seed)
}

// A rule, from the front of the space.
pub fn draw_rule(space: &mut [u8], seed: u64) -> Drawn {
    let mut g = Growth {
        end: 0,
        seed,
        need: 1,
        left: OPERATORS,
    };
    for _ in 0..2 * OPERATORS + 1 {
        g = grow(space, g);
    }
    Drawn {
        end: g.end,
        seed: g.seed,
    }
}

// One letter of three propositions.
fn draw_letter(space: &mut [u8], d: Drawn) -> Drawn {
    let seed = next(d.seed);
    let end = put_byte(space, d.end, (upper(seed) % 8) as u8);
    Drawn { end, seed }
}

// Up to five letters, from the front of the space.
pub fn draw_letters(space: &mut [u8], seed: u64) -> Drawn {
    let first = next(seed);
    let n = upper(first) % 6;
    let mut d = Drawn {
        end: 0,
        seed: first,
    };
    for _ in 0..n {
        d = draw_letter(space, d);
    }
    d
}
