// Built tables, label by label, and the limits of the builder.
use crate::bytes::{front, put, put_many};
use crate::show;
use std::io;
use tables::Tabled;

// All 4,096 labels that are not 0, also those outside the weight, if there were any.
fn show_labels(rt: &impl Print, table: &[u64]) -> io::Result<()> {
    for (at, label) in table.iter().enumerate() {
        if *label != 0 {
            println!(rt; "  {}-{} {label:016x}", at / 64, at % 64)?;
        }
    }
    Ok(())
}

// What building answers; whether there is a table.
fn build(rt: &impl Print, name: &str, rule: &[u8], table: &mut [u64]) -> io::Result<bool> {
    print!(rt; "{name}: ")?;
    match tables::build(rule, table) {
        Ok(
            Tabled {
                rule: known,
                finals,
            },
        ) => {
            print!(rt; "weight {}, finals", known.weight)?;
            show::members(rt, finals)?;
            println!(rt; "")?;
            return Ok(true);
        }
        Err(x) => show::refused(rt, x.number(), x.place())?,
    }
    Ok(false)
}

fn table_of(rt: &impl Print, name: &str, rule: &[u8], table: &mut [u64]) -> io::Result<()> {
    if build(rt, name, rule, table)? {
        show_labels(rt, table)?;
    }
    Ok(())
}

fn operators(rt: &impl Print, table: &mut [u64]) -> io::Result<()> {
    table_of(
        rt,
        "p0;{p1[*];p2}",
        b"\x12\x10\x01\x00\x12\x17\x10\x01\x01\x10\x01\x02",
        table,
    )?;
    table_of(rt, "empty", b"\x11", table)?;
    table_of(rt, "p5", b"\x10\x01\x05", table)?;
    table_of(rt, "p0[*]", b"\x17\x10\x01\x00", table)?;
    table_of(rt, "p0[+]", b"\x18\x10\x01\x00", table)
}

fn pairs(rt: &impl Print, table: &mut [u64]) -> io::Result<()> {
    table_of(rt, "p0;p1", b"\x12\x10\x01\x00\x10\x01\x01", table)?;
    table_of(rt, "p0:p1", b"\x13\x10\x01\x00\x10\x01\x01", table)?;
    table_of(rt, "p0|p1", b"\x14\x10\x01\x00\x10\x01\x01", table)?;
    table_of(rt, "p0&p1", b"\x15\x10\x01\x00\x10\x01\x01", table)?;
    table_of(rt, "p0&&p1", b"\x16\x10\x01\x00\x10\x01\x01", table)
}

fn heaviest(rt: &impl Print, space: &mut [u8], table: &mut [u64]) -> io::Result<()> {
    let n = put_many(space, 0, b"\x12\x10\x02", 31);
    let n = put(space, n, b"\x10\x02");
    build(rt, "32 letters joined by ;", front(space, n), table)?;
    Ok(())
}

// One state more than a table has.
fn too_heavy(rt: &impl Print, space: &mut [u8], table: &mut [u64]) -> io::Result<()> {
    let n = put(space, 0, b"\x12\x11");
    let n = put_many(space, n, b"\x12\x10\x02", 31);
    let n = put(space, n, b"\x10\x02");
    build(rt, "one state more", front(space, n), table)?;
    Ok(())
}

fn too_short(rt: &impl Print) -> io::Result<()> {
    let mut few = [0u64; 4095];
    build(rt, "in 4,095 entries", b"\x11", &mut few)?;
    Ok(())
}

fn repetitions(rt: &impl Print, space: &mut [u8], table: &mut [u64]) -> io::Result<()> {
    let n = put_many(space, 0, b"\x17", 254);
    let n = put(space, n, b"\x11");
    build(rt, "254 nested [*]", front(space, n), table)?;
    Ok(())
}

fn products(rt: &impl Print, space: &mut [u8], table: &mut [u64]) -> io::Result<()> {
    let n = put_many(space, 0, b"\x16", 127);
    let n = put_many(space, n, b"\x11", 128);
    build(
        rt,
        "127 nested && of the empty sequence",
        front(space, n),
        table,
    )?;
    build(
        rt,
        "& of & of the empty sequence",
        b"\x15\x15\x11\x11\x11",
        table,
    )?;
    Ok(())
}

pub fn run(rt: &impl Print, space: &mut [u8], table: &mut [u64]) -> io::Result<()> {
    operators(rt, table)?;
    pairs(rt, table)?;
    heaviest(rt, space, table)?;
    too_heavy(rt, space, table)?;
    too_short(rt)?;
    repetitions(rt, space, table)?;
    products(rt, space, table)
}
