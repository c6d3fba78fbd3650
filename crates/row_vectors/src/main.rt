// Converts tables to rows by letter and back, and walks over both, and prints what comes out: drawn words, a built table and a trimmed one,
// short slices, words past a table, steps in three forms, sequences, every refusal. The file stdout holds what should come out.
#![tactic(auto)]

ghost use Rattle.std.specs.Prelude.{◌≡◌};
ghost use Rattle.walkers.specs.Steps.{told, step_of};
ghost use Rattle.letter_rows.specs.Layouts.{table_by};

use automata::{STATES, TABLE_ENTRIES};
use letter_rows::{rows_of, table_of};
use row_walkers::sequences::follow_rows;
use row_walkers::{step_rows, step_rows_lent};
use std::io;
use tables::Tabled;
use walkers::{Step, Walker};

// Two words more than a table takes.
const LENT: usize = TABLE_ENTRIES + 2;

// {p0;{{p1}[*];p2}}
const EXAMPLE: [u8; 12] = *b"\x12\x10\x01\x00\x12\x17\x10\x01\x01\x10\x01\x02";

// ---- what is printed

fn refused(rt: &impl Print, number: u64, place: usize) -> io::Result<()> {
    print!(rt; "refused {number} at {place}")
}

fn show_conversion(rt: &impl Print, answer: Result<(), letter_rows::Refusal>) -> io::Result<()> {
    match answer {
        Ok(()) => print!(rt; "converted"),
        Err(x) => refused(rt, x.number(), x.place()),
    }
}

// Whether a step or a sequence matches, or why there is none.
fn show_answer(rt: &impl Print, answer: Result<bool, walkers::Refusal>) -> io::Result<()> {
    match answer {
        Ok(yes) => print!(rt; "{}", if yes { "yes" } else { "no" }),
        Err(x) => refused(rt, x.number(), x.place()),
    }
}

// What a walker holds.
fn show_walker(rt: &impl Print, w: Walker) -> io::Result<()> {
    let first = if w.matched { "first" } else { "none" };
    print!(rt;
        " {:016x} {:016x} taken {} {first} {}",
        w.set, w.finals, w.taken, w.first
    )
}

// The word at a place, if there is one.
fn show_word(rt: &impl Print, words: &[u64], at: usize) -> io::Result<()> {
    if let Some(w) = words.get(at) {
        print!(rt; " {w:016x}")?;
    }
    Ok(())
}

// ---- drawn words

// The word after z.
fn draw(z: u64) -> u64 {
    let a = z ^ (z << 13);
    let b = a ^ (a >> 7);
    b ^ (b << 17)
}

// Every word of the slice is drawn; of each bit three draws decide, so that about one in eight is set.
fn fill(out: &mut [u64], seed: u64) {
    let mut z = seed;
    for word in out {
        let a = draw(z);
        let b = draw(a);
        z = draw(b);
        *word = a & b & z;
    }
}

// A number that depends on each of the first 4,096 words and on where it stands.
fn digest(words: &[u64]) -> u64 {
    let mut d: u64 = 1;
    for word in words.iter().take(TABLE_ENTRIES) {
        d = draw(d ^ word);
    }
    d
}

// ---- conversions

// A few rows, the digest of all, and the two words past them.
fn show_words(rt: &impl Print, words: &[u64]) -> io::Result<()> {
    print!(rt; ", digest {:016x}, at 0 1 64 2087 4095", digest(words))?;
    show_word(rt, words, 0)?;
    show_word(rt, words, 1)?;
    show_word(rt, words, STATES)?;
    show_word(rt, words, 2087)?;
    show_word(rt, words, 4095)?;
    print!(rt; ", past them")?;
    show_word(rt, words, TABLE_ENTRIES)?;
    show_word(rt, words, TABLE_ENTRIES + 1)?;
    println!(rt; "")
}

// To rows and back into another slice.
fn there_and_back(
    rt: &impl Print,
    table: &[u64],
    rows: &mut [u64],
    back: &mut [u64],
) -> io::Result<()> {
    print!(rt; "table")?;
    show_words(rt, table)?;
    print!(rt; "to rows: ")?;
    show_conversion(rt, rows_of(table, rows))?;
    show_words(rt, rows)?;
    print!(rt; "and back: ")?;
    show_conversion(rt, table_of(rows, back))?;
    show_words(rt, back)
}

// Any words are rows: to a table and back.
fn back_and_there(
    rt: &impl Print,
    rows: &[u64],
    table: &mut [u64],
    again: &mut [u64],
) -> io::Result<()> {
    print!(rt; "rows")?;
    show_words(rt, rows)?;
    print!(rt; "to a table: ")?;
    show_conversion(rt, table_of(rows, table))?;
    show_words(rt, table)?;
    print!(rt; "and back: ")?;
    show_conversion(rt, rows_of(table, again))?;
    show_words(rt, again)
}

// The rows of a letter for the first six states.
fn show_rows(rt: &impl Print, rows: &[u64], x: u8) -> io::Result<()> {
    print!(rt; "  letter {x}:")?;
    for p in 0..6 {
        show_word(rt, rows, STATES * x as usize + p)?;
    }
    println!(rt; "")
}

fn show_letters(rt: &impl Print, rows: &[u64]) -> io::Result<()> {
    show_rows(rt, rows, 0)?;
    show_rows(rt, rows, 1)?;
    show_rows(rt, rows, 2)?;
    show_rows(rt, rows, 4)?;
    show_rows(rt, rows, 6)?;
    show_rows(rt, rows, 63)
}

// A slice that is one entry short of a table, or as it is if it is shorter.
fn shortened(words: &[u64]) -> &[u64] {
    if 4095 <= words.len() {
        &words[..4095]
    } else {
        words
    }
}

// A slice that is short is refused, as what is given and as what is to be written; `out` is one entry short of a table.
fn short_slices(rt: &impl Print, given: &[u64], out: &mut [u64]) -> io::Result<()> {
    print!(rt; "to short rows: ")?;
    show_conversion(rt, rows_of(given, out))?;
    print!(rt; "; to a short table: ")?;
    show_conversion(rt, table_of(given, out))?;
    print!(rt; "; from a short table too: ")?;
    show_conversion(rt, rows_of(shortened(given), out))?;
    show_words(rt, out)
}

fn short_given(rt: &impl Print, given: &[u64], out: &mut [u64]) -> io::Result<()> {
    print!(rt; "from a short table: ")?;
    show_conversion(rt, rows_of(shortened(given), out))?;
    print!(rt; "; from short rows: ")?;
    show_conversion(rt, table_of(shortened(given), out))?;
    show_words(rt, out)
}

// ---- steps

// The walker stepped where it stands, in a record of this function's own.
fn lent(mut walker: Walker, rows: &[u64], letter: u8) -> Step
    ensures { told result ≡ step_of (table_by rows.now) walker letter }
{
    let answer = step_rows_lent(&mut walker, rows, letter);
    Step { walker, answer }
}

fn show_both(rt: &impl Print, s: Step) -> io::Result<()> {
    show_answer(rt, s.answer)?;
    show_walker(rt, s.walker)?;
    println!(rt; "")
}

// One step over the table, over the rows, and over the rows where the walker stands.
fn step(rt: &impl Print, table: &[u64], rows: &[u64], w: Walker, letter: u8) -> io::Result<()> {
    print!(rt; "letter {letter} from")?;
    show_walker(rt, w)?;
    print!(rt; "\n  table: ")?;
    show_both(rt, w.step(table, letter))?;
    print!(rt; "  rows:  ")?;
    show_both(rt, step_rows(w, rows, letter))?;
    print!(rt; "  lent:  ")?;
    show_both(rt, lent(w, rows, letter))
}

// Sets of no member, of one, of 8 and of 64.
fn sets(rt: &impl Print, table: &[u64], rows: &[u64]) -> io::Result<()> {
    step(rt, table, rows, Walker::at(0, 1, 0, 0, false), 5)?;
    step(rt, table, rows, Walker::at(1, 1, 0, 0, true), 0)?;
    step(
        rt,
        table,
        rows,
        Walker::at(0x8000_0000_0000_0000, 0xFF, 3, 0, false),
        63,
    )?;
    step(
        rt,
        table,
        rows,
        Walker::at(0x0101_0101_0101_0101, 0xF0, 7, 2, true),
        33,
    )?;
    step(
        rt,
        table,
        rows,
        Walker::at(0xFFFF_FFFF_FFFF_FFFF, 1, 4294967294, 0, false),
        17,
    )
}

// 21 before 22, and 22 before 25.
fn refusals(rt: &impl Print, table: &[u64], rows: &[u64]) -> io::Result<()> {
    let full = Walker::at(3, 1, 4294967295, 9, true);
    step(rt, shortened(table), shortened(rows), full, 64)?;
    step(rt, table, rows, full, 64)?;
    step(rt, table, rows, full, 63)?;
    step(rt, table, rows, Walker::at(3, 1, 0, 0, false), 255)?;
    step(
        rt,
        shortened(table),
        shortened(rows),
        Walker::at(3, 1, 0, 0, false),
        1,
    )
}

// ---- sequences

fn follow(
    rt: &impl Print,
    table: &[u64],
    rows: &[u64],
    finals: u64,
    letters: &[u8],
) -> io::Result<()> {
    print!(rt; "{} letters, table: ", letters.len())?;
    show_answer(rt, walkers::follow(table, finals, letters))?;
    print!(rt; ", rows: ")?;
    show_answer(rt, follow_rows(rows, finals, letters))?;
    println!(rt; "")
}

fn sequences(rt: &impl Print, table: &[u64], rows: &[u64], finals: u64) -> io::Result<()> {
    follow(rt, table, rows, finals, b"")?;
    follow(rt, table, rows, finals, b"\x01\x04")?;
    follow(rt, table, rows, finals, b"\x01\x02\x02\x02\x04")?;
    follow(rt, table, rows, finals, b"\x01\x02\x02\x02")?;
    follow(rt, table, rows, finals, b"\x01\x02\x04\x04")?;
    follow(rt, table, rows, finals, b"\x01\x02\x40\x04\x80")?;
    follow(rt, shortened(table), shortened(rows), finals, b"\x40")
}

// Over drawn words, whether a set of final states is met.
fn drawn_sequences(rt: &impl Print, table: &[u64], rows: &[u64]) -> io::Result<()> {
    follow(rt, table, rows, 1, b"\x07")?;
    follow(rt, table, rows, 0x1000_0000, b"\x07")?;
    follow(rt, table, rows, 0x10, b"\x07\x3F")?;
    follow(rt, table, rows, 0x80, b"\x07\x3F\x00\x15\x2A\x21")?;
    follow(rt, table, rows, 0, b"\x07\x3F\x00\x15\x2A\x21")
}

// ---- the whole

fn drawn(
    rt: &impl Print,
    table: &mut [u64],
    rows: &mut [u64],
    other: &mut [u64],
) -> io::Result<()> {
    println!(rt; "drawn words")?;
    fill(table, 11);
    fill(rows, 22);
    fill(other, 33);
    there_and_back(rt, table, rows, other)?;
    sets(rt, table, rows)?;
    refusals(rt, table, rows)?;
    drawn_sequences(rt, table, rows)
}

fn drawn_rows(
    rt: &impl Print,
    rows: &mut [u64],
    table: &mut [u64],
    other: &mut [u64],
) -> io::Result<()> {
    println!(rt; "drawn words as rows")?;
    fill(rows, 44);
    fill(table, 55);
    back_and_there(rt, rows, table, other)?;
    short_given(rt, rows, table)
}

fn short(rt: &impl Print, given: &[u64], out: &mut [u64]) -> io::Result<()> {
    fill(out, 66);
    short_slices(rt, given, out)
}

fn walked(
    rt: &impl Print,
    table: &[u64],
    rows: &mut [u64],
    other: &mut [u64],
    finals: u64,
) -> io::Result<()> {
    there_and_back(rt, table, rows, other)?;
    show_letters(rt, rows)?;
    sequences(rt, table, rows, finals)
}

fn built(
    rt: &impl Print,
    table: &mut [u64],
    rows: &mut [u64],
    other: &mut [u64],
) -> io::Result<()> {
    println!(rt; "the table of {{p0;{{{{p1}}[*];p2}}}}")?;
    if let Ok(Tabled { rule: _, finals }) = tables::build(&EXAMPLE, table) {
        walked(rt, table, rows, other, finals)?;
    }
    Ok(())
}

// Trimmed tables convert like any other.
fn trimmed(
    rt: &impl Print,
    table: &mut [u64],
    rows: &mut [u64],
    other: &mut [u64],
) -> io::Result<()> {
    println!(rt; "trimmed")?;
    if let Ok(t) = trims::trim(table, 6, 32) {
        walked(rt, table, rows, other, t.finals)?;
    }
    Ok(())
}

fn main(rt: HostRuntime) -> io::Result<()> {
    let mut table = [0u64; LENT];
    let mut rows = [0u64; LENT];
    let mut other = [0u64; LENT];
    drawn(&rt, &mut table, &mut rows, &mut other)?;
    drawn_rows(&rt, &mut rows, &mut table, &mut other)?;
    let mut few = [0u64; TABLE_ENTRIES - 1];
    short(&rt, &rows, &mut few)?;
    built(&rt, &mut table, &mut rows, &mut other)?;
    trimmed(&rt, &mut table, &mut rows, &mut other)
}
