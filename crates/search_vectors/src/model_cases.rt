// The boundary cases of the model reader.
use crate::bytes::{front, put, put_many};
use crate::show;
use std::io;

fn read(rt: &impl Print, name: &str, model: &[u8]) -> io::Result<()> {
    print!(rt; "{name}: ")?;
    let read = models::read_model(model);
    match read.answer {
        Ok(()) => println!(rt;
            "states {}, initial {}",
            read.model.states, read.model.initial
        ),
        Err(x) => show::refused(rt, x.number(), x.place()),
    }
}

// A state with letter 63 that is initial and has state 0 alone for its successor.
const RECORD: [u8; 11] = *b"\x20\x3F\x01\x01\x00\x00\x00\x00\x00\x00\x00";

fn counts(rt: &impl Print, space: &mut [u8]) -> io::Result<()> {
    read(rt, "no bytes", b"")?;
    let n = put_many(space, 0, &RECORD, 64);
    read(rt, "64 records", front(space, n))?;
    let n = put(space, n, b"\x00");
    read(rt, "705 bytes", front(space, n))
}

fn refusals(rt: &impl Print) -> io::Result<()> {
    read(rt, "kind 21", b"\x21")?;
    read(rt, "a kind and no more", b"\x20")?;
    read(rt, "a letter and no more", b"\x20\x3F")?;
    read(
        rt,
        "a record that lacks its last byte",
        b"\x20\x3F\x01\x01\x00\x00\x00\x00\x00\x00",
    )?;
    read(rt, "letter 64, cut short", b"\x20\x40")?;
    read(rt, "flag 2, cut short", b"\x20\x00\x02")
}

// Successors are looked at after all records, the lowest state first.
fn successors(rt: &impl Print, space: &mut [u8]) -> io::Result<()> {
    let n = put(space, 0, &RECORD);
    let n = put(space, n, b"\x20\x00\x00\x02\x00\x00\x00\x00\x00\x00\x80");
    read(rt, "successor 63 of 2 states", front(space, n))?;
    let n = put(space, n, b"\x20\x00\x02");
    read(
        rt,
        "the same, with flag 2 in the record after it",
        front(space, n),
    )
}

pub fn run(rt: &impl Print, space: &mut [u8]) -> io::Result<()> {
    read(
        rt,
        "the worked model",
        b"\x20\x01\x01\x02\x00\x00\x00\x00\x00\x00\x00\x20\x02\x00\x06\x00\x00\x00\x00\x00\x00\x00\x20\x04\x00\x00\x00\x00\x00\x00\x00\x00\x00",
    )?;
    counts(rt, space)?;
    refusals(rt)?;
    successors(rt, space)
}
