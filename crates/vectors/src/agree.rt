// Rules and sequences that are drawn: the plain judge, and the built table followed, must say the same.
use crate::bytes::front;
use crate::draws::{draw_letters, draw_rule};
use std::io;
use tables::Tabled;

const CASES: usize = 600;

const FIRST_SEED: u64 = 2026;

// How often both say yes, both say no, both refuse, and how often they say something else.
#[derive(Drop)]
struct Tally {
    yes: u64,
    no: u64,
    refused: u64,
    apart: u64,
}

// What the judge says of a sequence; nothing if it refuses.
fn judge_says(rule: &[u8], letters: &[u8]) -> Option<bool> {
    match judge::judge(rule, letters) {
        Ok(j) => Some(j.accepts),
        Err(_) => None,
    }
}

// What the table that is followed says; nothing if it is not built or refuses.
fn table_says(rule: &[u8], letters: &[u8], table: &mut [u64]) -> Option<bool> {
    match tables::build(rule, table) {
        Ok(Tabled { rule: _, finals }) => walkers::follow(table, finals, letters).ok(),
        Err(_) => None,
    }
}

fn one_more(n: u64) -> u64 {
    if n < 1000000 { n + 1 } else { n }
}

fn tallied(t: Tally, a: Option<bool>, b: Option<bool>) -> Tally {
    if a != b {
        return Tally {
            apart: one_more(t.apart),
            ..t
        };
    }
    match a {
        Some(true) => Tally {
            yes: one_more(t.yes),
            ..t
        },
        Some(false) => Tally {
            no: one_more(t.no),
            ..t
        },
        None => Tally {
            refused: one_more(t.refused),
            ..t
        },
    }
}

fn compare(rule: &[u8], letters: &[u8], table: &mut [u64], t: Tally) -> Tally {
    let a = judge_says(rule, letters);
    let b = table_says(rule, letters, table);
    tallied(t, a, b)
}

#[derive(Drop)]
struct Progress {
    seed: u64,
    tally: Tally,
}

fn one_case(space: &mut [u8], letters: &mut [u8], table: &mut [u64], p: Progress) -> Progress {
    let rule = draw_rule(space, p.seed);
    let drawn = draw_letters(letters, rule.seed);
    let t = p.tally;
    let tally = compare(front(space, rule.end), front(letters, drawn.end), table, t);
    Progress {
        seed: drawn.seed,
        tally,
    }
}

fn report(rt: &impl Print, t: Tally) -> io::Result<()> {
    println!(rt;
        "judge and table on drawn rules: both yes {}, both no {}, both refused {}, apart {}",
        t.yes, t.no, t.refused, t.apart
    )
}

fn start() -> Progress {
    Progress {
        seed: FIRST_SEED,
        tally: Tally {
            yes: 0,
            no: 0,
            refused: 0,
            apart: 0,
        },
    }
}

fn all_cases(space: &mut [u8], letters: &mut [u8], table: &mut [u64]) -> Progress {
    let mut p = start();
    for _ in 0..CASES {
        p = one_case(space, letters, table, p);
    }
    p
}

pub fn run(
    rt: &impl Print,
    space: &mut [u8],
    letters: &mut [u8],
    table: &mut [u64],
) -> io::Result<()> {
    let p = all_cases(space, letters, table);
    report(rt, p.tally)
}
