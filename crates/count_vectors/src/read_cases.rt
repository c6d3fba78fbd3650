// Reading: weights, and where each refusal is.
use crate::show;
use std::io;

fn read(rt: &impl Print, name: &str, rule: &[u8]) -> io::Result<()> {
    print!(rt; "{name}: ")?;
    match rules::read_rule(rule) {
        Ok(known) => {
            print!(rt; "weight {}, uses", known.weight)?;
            show::members(rt, known.uses)?;
        }
        Err(x) => show::refused(rt, x.number(), x.place())?,
    }
    println!(rt; "")
}

fn weights(rt: &impl Print) -> io::Result<()> {
    read(rt, "{p0}[*3..5]", b"\x19\x03\x05\x10\x01\x00")?;
    read(rt, "p0[=3..5]", b"\x1A\x03\x05\x01\x00")?;
    read(rt, "15 copies of a letter", b"\x19\x0F\x0F\x10\x02")?;
    read(
        rt,
        "8 copies of what weighs 8",
        b"\x19\x00\x08\x12\x10\x02\x12\x10\x02\x12\x10\x02\x10\x02",
    )?;
    read(
        rt,
        "13 copies of what weighs 5",
        b"\x19\x00\x0D\x14\x10\x01\x03\x10\x02",
    )?;
    read(
        rt,
        "no copy of these",
        b"\x19\x00\x00\x19\x00\x0D\x14\x10\x01\x03\x10\x02",
    )
}

fn counts(rt: &impl Print) -> io::Result<()> {
    read(rt, "19", b"\x19")?;
    read(rt, "19 FF", b"\x19\xFF")?;
    read(rt, "19 02 01", b"\x19\x02\x01")?;
    read(rt, "19 00 10 11", b"\x19\x00\x10\x11")?;
    read(rt, "1A FF 00 07", b"\x1A\xFF\x00\x07")?;
    read(rt, "12 11 19 03 02 07", b"\x12\x11\x19\x03\x02\x07")
}

fn operands(rt: &impl Print) -> io::Result<()> {
    read(rt, "19 01 02", b"\x19\x01\x02")?;
    read(rt, "19 01 02 02", b"\x19\x01\x02\x02")?;
    read(rt, "1A 01 02 11", b"\x1A\x01\x02\x11")?;
    read(rt, "1A 0F 0F 01 06", b"\x1A\x0F\x0F\x01\x06")?;
    read(rt, "19 00 00 11 11", b"\x19\x00\x00\x11\x11")?;
    read(rt, "1B 00 00 11", b"\x1B\x00\x00\x11")
}

pub fn run(rt: &impl Print) -> io::Result<()> {
    weights(rt)?;
    counts(rt)?;
    operands(rt)
}
