// What is accepted: the plain judge and the table that is followed, one after the other.
use crate::show;
use std::io;
use tables::Tabled;

// 15 copies of 4 of one of one of .. of the empty sequence, as deep as the bytes allow: it weighs 60.
const NESTED: [u8; 253] =
    *b"\x19\x0f\x0f\x19\x04\x04\x19\x01\x01\x19\x01\x01\x19\x01\x01\x19\x01\x01\x19\x01\x01\x19\x01\x01\x19\x01\x01\x19\x01\x01\x19\x01\x01\x19\x01\x01\x19\x01\x01\x19\x01\x01\x19\x01\x01\x19\x01\x01\x19\x01\x01\x19\x01\x01\x19\x01\x01\x19\x01\x01\x19\x01\x01\x19\x01\x01\x19\x01\x01\x19\x01\x01\x19\x01\x01\x19\x01\x01\x19\x01\x01\x19\x01\x01\x19\x01\x01\x19\x01\x01\x19\x01\x01\x19\x01\x01\x19\x01\x01\x19\x01\x01\x19\x01\x01\x19\x01\x01\x19\x01\x01\x19\x01\x01\x19\x01\x01\x19\x01\x01\x19\x01\x01\x19\x01\x01\x19\x01\x01\x19\x01\x01\x19\x01\x01\x19\x01\x01\x19\x01\x01\x19\x01\x01\x19\x01\x01\x19\x01\x01\x19\x01\x01\x19\x01\x01\x19\x01\x01\x19\x01\x01\x19\x01\x01\x19\x01\x01\x19\x01\x01\x19\x01\x01\x19\x01\x01\x19\x01\x01\x19\x01\x01\x19\x01\x01\x19\x01\x01\x19\x01\x01\x19\x01\x01\x19\x01\x01\x19\x01\x01\x19\x01\x01\x19\x01\x01\x19\x01\x01\x19\x01\x01\x19\x01\x01\x19\x01\x01\x19\x01\x01\x19\x01\x01\x19\x01\x01\x19\x01\x01\x19\x01\x01\x19\x01\x01\x19\x01\x01\x19\x01\x01\x19\x01\x01\x19\x01\x01\x19\x01\x01\x11";

fn said(rt: &impl Print, yes: bool) -> io::Result<()> {
    print!(rt; "{}", if yes { " yes" } else { " no" })
}

fn judge_says(rt: &impl Print, rule: &[u8], letters: &[u8]) -> io::Result<()> {
    match judge::judge(rule, letters) {
        Ok(j) => said(rt, j.accepts)?,
        Err(x) => show::refused(rt, x.number(), x.place())?,
    }
    Ok(())
}

fn followed(rt: &impl Print, table: &[u64], finals: u64, letters: &[u8]) -> io::Result<()> {
    match walkers::follow(table, finals, letters) {
        Ok(matched) => said(rt, matched)?,
        Err(x) => show::refused(rt, x.number(), x.place())?,
    }
    Ok(())
}

fn table_says(rt: &impl Print, rule: &[u8], letters: &[u8], table: &mut [u64]) -> io::Result<()> {
    match tables::build(rule, table) {
        Ok(Tabled { rule: _, finals }) => followed(rt, table, finals, letters)?,
        Err(x) => show::refused(rt, x.number(), x.place())?,
    }
    Ok(())
}

fn both(
    rt: &impl Print,
    name: &str,
    rule: &[u8],
    letters: &[u8],
    table: &mut [u64],
) -> io::Result<()> {
    print!(rt; "{name}:")?;
    judge_says(rt, rule, letters)?;
    table_says(rt, rule, letters, table)?;
    println!(rt; "")
}

fn expiries(rt: &impl Print, table: &mut [u64]) -> io::Result<()> {
    let rule = b"\x19\x03\x05\x10\x01\x00";
    both(rt, "{p0}[*3..5] on [1 1]", rule, b"\x01\x01", table)?;
    both(rt, "{p0}[*3..5] on [1 1 1]", rule, b"\x01\x01\x01", table)?;
    both(
        rt,
        "{p0}[*3..5] on [1 1 0 1]",
        rule,
        b"\x01\x01\x00\x01",
        table,
    )?;
    both(
        rt,
        "{p0}[*3..5] on [1 1 1 1 1]",
        rule,
        b"\x01\x01\x01\x01\x01",
        table,
    )?;
    both(
        rt,
        "{p0}[*3..5] on [1 1 1 1 1 1]",
        rule,
        b"\x01\x01\x01\x01\x01\x01",
        table,
    )
}

fn anywhere(rt: &impl Print, table: &mut [u64]) -> io::Result<()> {
    let rule = b"\x1A\x03\x05\x01\x00";
    both(
        rt,
        "p0[=3..5] on [1 0 1 0]",
        rule,
        b"\x01\x00\x01\x00",
        table,
    )?;
    both(
        rt,
        "p0[=3..5] on [2 1 0 1 1 0]",
        rule,
        b"\x02\x01\x00\x01\x01\x00",
        table,
    )?;
    both(
        rt,
        "p0[=3..5] on [1 1 1 1 1]",
        rule,
        b"\x01\x01\x01\x01\x01",
        table,
    )?;
    both(
        rt,
        "p0[=3..5] on [1 1 1 0 1 1 1]",
        rule,
        b"\x01\x01\x01\x00\x01\x01\x01",
        table,
    )
}

fn empty_parts(rt: &impl Print, table: &mut [u64]) -> io::Result<()> {
    both(rt, "{[*0]}[*3..3] on []", b"\x19\x03\x03\x11", b"", table)?;
    both(
        rt,
        "{{p0}[*]}[*2..2] on [1]",
        b"\x19\x02\x02\x17\x10\x01\x00",
        b"\x01",
        table,
    )?;
    both(
        rt,
        "{p0}[*0..0] on []",
        b"\x19\x00\x00\x10\x01\x00",
        b"",
        table,
    )?;
    both(
        rt,
        "{p0}[*0..0] on [1]",
        b"\x19\x00\x00\x10\x01\x00",
        b"\x01",
        table,
    )
}

fn no_letters(rt: &impl Print, table: &mut [u64]) -> io::Result<()> {
    both(rt, "p0[=0..0] on []", b"\x1A\x00\x00\x01\x00", b"", table)?;
    both(
        rt,
        "p0[=0..0] on [0 1]",
        b"\x1A\x00\x00\x01\x00",
        b"\x00\x01",
        table,
    )
}

fn nested(rt: &impl Print, table: &mut [u64]) -> io::Result<()> {
    both(
        rt,
        "84 nested counts on 16 letters",
        &NESTED,
        b"\x01\x01\x01\x01\x01\x01\x01\x01\x01\x01\x01\x01\x01\x01\x01\x01",
        table,
    )
}

pub fn run(rt: &impl Print, table: &mut [u64]) -> io::Result<()> {
    expiries(rt, table)?;
    anywhere(rt, table)?;
    empty_parts(rt, table)?;
    no_letters(rt, table)?;
    nested(rt, table)
}
