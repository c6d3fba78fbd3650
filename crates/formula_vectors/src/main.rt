// Reads lines of a name, a colon and the bytes of two formulas, and prints what their model comes to in a slice of 703 bytes and in one of 720: every
// refusal with its place, a ring of 64 states, the complete model, the one with no run, and that nothing else is touched. The file stdin holds
// the lines, and stdout what should come out.
#![tactic(auto)]

ghost use Rattle.std.specs.Prelude.{◌≤◌, length};

use formula_models::{MODEL_BYTES, read_formulas};
use models::read_model;
use std::io;
use writing::front;

// What stands in a slice before a call.
const FILL: u8 = 0xA5;

const INPUT_ROOM: usize = 16384;

const MOST_BYTES: usize = 300;

// How many bytes from `from` on are as they were.
fn kept(model: &[u8], from: usize) -> usize {
    model
        .iter()
        .skip(from)
        .filter(|byte| **byte == FILL)
        .count()
}

// The sum of the sums of the model's bytes, from the first on.
fn checksum(model: &[u8]) -> u64 {
    let mut sum: u64 = 0;
    let mut sums: u64 = 0;
    for byte in model.iter().take(MODEL_BYTES) {
        sum = sum.wrapping_add(*byte as u64);
        sums = sums.wrapping_add(sum);
    }
    sums
}

// What the record of state x says.
fn state(rt: &impl Print, model: &[u8], x: usize) -> io::Result<()>
    requires { (704 ≤ length model.now) × (x ≤ 63) }
{
    let letter = model[11 * x + 1];
    let successors = bits::word_at(model, 11 * x + 3);
    print!(rt; "\n  state {x}, letter {letter}, successors {successors}")
}

// Whether the reader of models accepts it, with how many states.
fn accepted(rt: &impl Print, model: &[u8]) -> io::Result<()> {
    let read = read_model(model);
    match read.answer {
        Err(_) => print!(rt; ", NO MODEL"),
        Ok(()) => print!(rt;
            ", states {}, initial {}",
            read.model.states, read.model.initial
        ),
    }
}

fn show(rt: &impl Print, model: &[u8]) -> io::Result<()>
    requires { 704 ≤ length model.now }
{
    accepted(rt, front(model, MODEL_BYTES))?;
    print!(rt; ", checksum {}", checksum(model))?;
    state(rt, model, 0)?;
    state(rt, model, 1)?;
    state(rt, model, 62)?;
    state(rt, model, 63)
}

// The formulas, read into this slice.
fn tried(rt: &impl Print, formulas: &[u8], model: &mut [u8]) -> io::Result<()> {
    print!(rt; "\n  in {}", model.len())?;
    match read_formulas(formulas, model) {
        Err(x) => {
            print!(rt; ": refused {} at {}", x.number(), x.place())?;
            print!(rt; ", as they were {}", kept(model, 0))?;
        }
        Ok(()) => {
            print!(rt; ": written, as they were {}", kept(model, MODEL_BYTES))?;
            if MODEL_BYTES <= model.len() {
                show(rt, model)?;
            }
        }
    }
    Ok(())
}

// Both slices.
fn case(rt: &impl Print, formulas: &[u8]) -> io::Result<()> {
    tried(rt, formulas, &mut [FILL; 703])?;
    tried(rt, formulas, &mut [FILL; 720])?;
    println!(rt; "")
}

// A line as far as it is taken: whether its name is over, a first digit that waits for the second, and how many bytes there are.
#[derive(Drop)]
struct Line {
    named: bool,
    high: Option<u8>,
    count: usize,
}

fn begun() -> Line {
    Line {
        named: false,
        high: None,
        count: 0,
    }
}

fn digit(byte: u8) -> Option<u8> {
    match byte {
        b'0'..=b'9' => Some(byte - b'0'),
        b'A'..=b'F' => Some(byte - b'A' + 10),
        _ => None,
    }
}

// The name is printed as it comes, with its colon.
fn in_name(rt: &impl Print, line: Line, byte: u8) -> io::Result<Line> {
    rt.write_all(&[byte])?;
    Ok(Line {
        named: byte == b':',
        ..line
    })
}

// One more character of the bytes.
fn in_bytes(line: Line, byte: u8, formulas: &mut [u8]) -> Line {
    let Some(d) = digit(byte) else {
        return line;
    };
    let Some(high) = line.high else {
        return Line {
            high: Some(d),
            ..line
        };
    };
    let at = line.count;
    if at < formulas.len() {
        formulas[at] = (high << 4) | d;
        return Line {
            high: None,
            count: at + 1,
            ..line
        };
    }
    line
}

// The line is over.
fn tried_line(rt: &impl Print, line: Line, formulas: &[u8]) -> io::Result<()> {
    let count = line.count;
    if count <= formulas.len() {
        case(rt, front(formulas, count))?;
    }
    Ok(())
}

fn taken(rt: &impl Print, line: Line, byte: u8, formulas: &mut [u8]) -> io::Result<Line> {
    if byte == b'\n' {
        tried_line(rt, line, formulas)?;
        return Ok(begun());
    }
    if line.named {
        return Ok(in_bytes(line, byte, formulas));
    }
    in_name(rt, line, byte)
}

fn lines(rt: &impl Print, input: &[u8], formulas: &mut [u8]) -> io::Result<()> {
    let mut line = begun();
    for byte in input {
        line = taken(rt, line, *byte, formulas)?;
    }
    Ok(())
}

fn main(rt: HostRuntime) -> io::Result<()> {
    let mut space = [0u8; INPUT_ROOM];
    let mut formulas = [0u8; MOST_BYTES];
    let long = streams::read_input(&mut rt.stdin(), &mut space)?;
    lines(&rt, front(&space, long), &mut formulas)
}
