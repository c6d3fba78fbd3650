// Built tables, label by label.
use crate::show;
use std::io;
use tables::Tabled;

// All 4,096 labels that are not 0, also those outside the weight, if there were any.
fn show_labels(rt: &impl Print, table: &[u64]) -> io::Result<()> {
    for (at, label) in table.iter().enumerate() {
        if *label != 0 {
            println!(rt; "  {}-{} {label:016x}", at / 64, at % 64)?;
        }
    }
    Ok(())
}

fn table_of(rt: &impl Print, name: &str, rule: &[u8], table: &mut [u64]) -> io::Result<()> {
    print!(rt; "{name}: ")?;
    match tables::build(rule, table) {
        Ok(
            Tabled {
                rule: known,
                finals,
            },
        ) => {
            print!(rt; "weight {}, finals", known.weight)?;
            show::members(rt, finals)?;
            println!(rt; "")?;
            show_labels(rt, table)?;
        }
        Err(x) => show::refused(rt, x.number(), x.place())?,
    }
    Ok(())
}

fn parts(rt: &impl Print, table: &mut [u64]) -> io::Result<()> {
    table_of(rt, "{p0}[*0..0]", b"\x19\x00\x00\x10\x01\x00", table)?;
    table_of(rt, "{p0}[*0..1]", b"\x19\x00\x01\x10\x01\x00", table)?;
    table_of(rt, "{p0}[*1..1]", b"\x19\x01\x01\x10\x01\x00", table)?;
    table_of(rt, "{p0}[*0..2]", b"\x19\x00\x02\x10\x01\x00", table)?;
    table_of(rt, "{p0}[*1..2]", b"\x19\x01\x02\x10\x01\x00", table)?;
    table_of(rt, "{p0}[*2..2]", b"\x19\x02\x02\x10\x01\x00", table)
}

fn more_parts(rt: &impl Print, table: &mut [u64]) -> io::Result<()> {
    table_of(rt, "{p0}[*3..5]", b"\x19\x03\x05\x10\x01\x00", table)?;
    table_of(
        rt,
        "{{p0}[*]}[*2..2]",
        b"\x19\x02\x02\x17\x10\x01\x00",
        table,
    )?;
    table_of(rt, "{[*0]}[*2..3]", b"\x19\x02\x03\x11", table)
}

fn letters(rt: &impl Print, table: &mut [u64]) -> io::Result<()> {
    table_of(rt, "p0[=0..0]", b"\x1A\x00\x00\x01\x00", table)?;
    table_of(rt, "p0[=0..1]", b"\x1A\x00\x01\x01\x00", table)?;
    table_of(rt, "p0[=1..1]", b"\x1A\x01\x01\x01\x00", table)?;
    table_of(rt, "p0[=1..2]", b"\x1A\x01\x02\x01\x00", table)
}

pub fn run(rt: &impl Print, table: &mut [u64]) -> io::Result<()> {
    parts(rt, table)?;
    more_parts(rt, table)?;
    letters(rt, table)
}
