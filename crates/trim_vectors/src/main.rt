// Prints what trimming comes to: labels, weights and finals, every refusal, and the search over the trimmed table.
#![tactic(auto)]

use automata::{STATES, TABLE_ENTRIES};
use search::Answered;
use std::io;
use tables::Tabled;
use trims::{Refusal, TrimmedTable};

// An entry more than a table takes; it holds OLD before and after.
const LENT: usize = TABLE_ENTRIES + 1;

const OLD: u64 = 7;

// {p0;{{p1}[*];p2}}
const EXAMPLE: [u8; 12] = *b"\x12\x10\x01\x00\x12\x17\x10\x01\x01\x10\x01\x02";

// {p0;false}
const NOTHING: [u8; 6] = *b"\x12\x10\x01\x00\x10\x03";

// {p0|{p0;false}}: the second part leads nowhere.
const HALF: [u8; 10] = *b"\x14\x10\x01\x00\x12\x10\x01\x00\x10\x03";

// p0, then p1 as often as it likes, then p2 for ever.
const MODEL: [u8; 33] =
    *b"\x20\x01\x01\x02\x00\x00\x00\x00\x00\x00\x00\x20\x02\x00\x06\x00\x00\x00\x00\x00\x00\x00\x20\x04\x00\x04\x00\x00\x00\x00\x00\x00\x00";

fn refused(rt: &impl Print, number: u64, place: usize) -> io::Result<()> {
    println!(rt; "refused {number} at {place}")
}

fn sizes(rt: &impl Print, word: &str, weight: usize, finals: u64) -> io::Result<()> {
    println!(rt; "{word} {weight} finals {finals:016x}")
}

// The labels that are not 0.
fn show_labels(rt: &impl Print, table: &[u64]) -> io::Result<()> {
    for (at, label) in table.iter().take(TABLE_ENTRIES).enumerate() {
        if *label != 0 {
            println!(rt; "  {} to {} {label:016x}", at / STATES, at % STATES)?;
        }
    }
    Ok(())
}

// Says so if the entry past the table is not as it was.
fn show_past(rt: &impl Print, table: &[u64]) -> io::Result<()> {
    match table.get(TABLE_ENTRIES) {
        Some(v) if *v != OLD => println!(rt; "past the table something changed"),
        _ => Ok(()),
    }
}

// What trimming comes to, with the labels that the slice then has.
fn show_trimmed(
    rt: &impl Print,
    answer: Result<TrimmedTable, Refusal>,
    table: &[u64],
) -> io::Result<()> {
    match answer {
        Err(x) => refused(rt, x.number(), x.place())?,
        Ok(trimmed) => {
            sizes(rt, "trimmed", trimmed.weight, trimmed.finals)?;
            show_labels(rt, table)?;
        }
    }
    show_past(rt, table)
}

// Trims the slice, and what came of it once more.
fn trim(rt: &impl Print, table: &mut [u64], weight: usize, finals: u64) -> io::Result<()> {
    let answer = trims::trim(table, weight, finals);
    show_trimmed(rt, answer, table)?;
    if let Ok(first) = answer {
        print!(rt; "again ")?;
        let again = trims::trim(table, first.weight, first.finals);
        show_trimmed(rt, again, table)?;
    }
    Ok(())
}

// A rule's table before and after.
fn build_and_trim(rt: &impl Print, rule: &[u8]) -> io::Result<()> {
    let mut table = [OLD; LENT];
    let answer = tables::build(rule, &mut table);
    match answer {
        Err(x) => refused(rt, x.number(), x.place())?,
        Ok(
            Tabled {
                rule: known,
                finals,
            },
        ) => {
            sizes(rt, "built", known.weight, finals)?;
            trim(rt, &mut table, known.weight, finals)?;
        }
    }
    Ok(())
}

// Where the label from p to q stands.
fn place(p: usize, q: usize) -> usize {
    if p < STATES && q < STATES {
        return STATES * p + q;
    }
    TABLE_ENTRIES
}

fn put(table: &mut [u64], at: usize, v: u64) {
    if at < table.len() {
        table[at] = v;
    }
}

// A table of two labels: from p to q by p0's letters, and from 0 to itself by letter 0.
fn lent(rt: &impl Print, p: usize, q: usize, weight: usize, finals: u64) -> io::Result<()> {
    let mut table = [0u64; LENT];
    put(&mut table, 0, 1);
    put(&mut table, place(p, q), 0xaaaa_aaaa_aaaa_aaaa);
    put(&mut table, TABLE_ENTRIES, OLD);
    trim(rt, &mut table, weight, finals)
}

fn refusals(rt: &impl Print) -> io::Result<()> {
    let mut short = [0u64; TABLE_ENTRIES - 1];
    trim(rt, &mut short, 0, 1)?;
    lent(rt, 0, 1, 0, 0)?;
    lent(rt, 0, 1, 65, 1)?;
    lent(rt, 0, 1, 2, 4)?;
    lent(rt, 0, 2, 2, 1)?;
    lent(rt, 2, 0, 2, 1)?;
    lent(rt, 63, 63, 63, 1)
}

fn found(rt: &impl Print, run: &[u8], long: usize, pairs: usize) -> io::Result<()> {
    print!(rt; "found {long} pairs {pairs}:")?;
    for state in run.iter().take(long) {
        print!(rt; " {state}")?;
    }
    println!(rt; "")
}

// What a search came to, and the table that it left, if it was made.
fn show_search(
    rt: &impl Print,
    answer: Result<Answered, search::Refusal>,
    table: &[u64],
    run: &[u8],
) -> io::Result<()> {
    match answer {
        Err(x) => return refused(rt, x.number(), x.place()),
        Ok(Answered { searched, rule: _ }) => match searched.found {
            Some(long) => found(rt, run, long, searched.pairs)?,
            None => println!(rt; "none pairs {}", searched.pairs)?,
        },
    }
    show_labels(rt, table)?;
    show_past(rt, table)
}

// The two searches.
fn search_both(rt: &impl Print, rule: &[u8], model: &[u8], run: &mut [u8]) -> io::Result<()> {
    let mut table = [OLD; LENT];
    let mut marks = [1u16; LENT];
    let mut useful = [1u16; LENT];
    let whole = search::search(rule, model, &mut table, &mut marks, &mut useful, run);
    print!(rt; "search ")?;
    show_search(rt, whole, &table, run)?;
    let trimmed = trimmed_search::search_trimmed(
        rule,
        model,
        &mut table,
        &mut marks,
        &mut useful,
        run,
    );
    print!(rt; "trimmed ")?;
    show_search(rt, trimmed, &table, run)
}

fn searches(rt: &impl Print) -> io::Result<()> {
    search_both(rt, &EXAMPLE, &MODEL, &mut [0u8; LENT])?;
    search_both(rt, &HALF, &MODEL, &mut [0u8; LENT])?;
    search_both(rt, &NOTHING, &MODEL, &mut [0u8; LENT])?;
    search_both(rt, b"\x10\x01\x06", &MODEL, &mut [0u8; LENT])?;
    search_both(rt, &EXAMPLE, b"\x20\x40", &mut [0u8; LENT])?;
    search_both(rt, &EXAMPLE, &MODEL, &mut [0u8; TABLE_ENTRIES - 1])
}

fn main(rt: HostRuntime) -> io::Result<()> {
    build_and_trim(&rt, &EXAMPLE)?;
    build_and_trim(&rt, &NOTHING)?;
    build_and_trim(&rt, &HALF)?;
    // Labels into state 0, and a final that nothing reaches.
    lent(&rt, 1, 0, 2, 2)?;
    lent(&rt, 0, 3, 4, 8)?;
    lent(&rt, 3, 0, 4, 1)?;
    refusals(&rt)?;
    searches(&rt)
}
