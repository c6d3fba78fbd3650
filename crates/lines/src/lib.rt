// The line that says what the search for one input comes to: `found L pairs C: s0 s1 ..`, `none pairs C` or `refused N at P`.
#![tactic(auto)]

ghost use Rattle.std.specs.Prelude.{◌≡◌, ◌≤◌, length};
ghost use Rattle.search.specs.Answer.{slices};
ghost use Rattle.lines.specs.Input.{rule_in_of, model_in_of};
ghost use Rattle.lines.specs.Room.{line_room};
ghost use Rattle.lines.specs.Line.{fresh, LineRight};

use crate::answers::put_answer;
use automata::TABLE_ENTRIES;
use writing::{front, past};

mod answers; // what a search comes to, as text

// The longest run has 4,032 states, so that no line is longer.
pub const LINE_ROOM: usize = 16384;

// Each slice that a search is lent has as many entries as a table.
const ENTRIES: usize = TABLE_ENTRIES;

// The number that a byte stands for.
fn long_of(byte: u8) -> usize
    ensures { result ≡ byte }
{
    byte as usize
}

// The rule of an input: as many bytes as the first byte says, or what there is of them.
fn rule_in(input: &[u8]) -> &[u8]
    ensures { result.now ≡ rule_in_of input.now }
{
    if input.len() == 0 {
        return input;
    }
    let long = long_of(input[0]);
    let rest = past(input, 1);
    if rest.len() < long {
        return rest;
    }
    front(rest, long)
}

// The model of an input: what follows the rule.
fn model_in(input: &[u8]) -> &[u8]
    ensures { result.now ≡ model_in_of input.now }
{
    if input.len() == 0 {
        return input;
    }
    let long = long_of(input[0]);
    let rest = past(input, 1);
    if rest.len() < long {
        return past(rest, rest.len());
    }
    past(rest, long)
}

// The line, where the output is long enough; the search is lent fresh slices.
fn line_with(
    input: &[u8],
    table: &mut [u64],
    marks: &mut [u16],
    useful: &mut [u16],
    run: &mut [u8],
    out: &mut [u8],
) -> usize
    requires { (line_room ≤ length out.old) × (slices table.old marks.old useful.old run.old ≡ fresh) }
    ensures { LineRight input.now out.old out.new result }
{
    let answer = search::search(rule_in(input), model_in(input), table, marks, useful, run);
    put_answer(out, answer, run)
}

// Writes the line for an input to the beginning of `out` and answers its length; 0 where `out` is shorter than 16,384 bytes.
pub fn line(input: &[u8], out: &mut [u8]) -> usize
    ensures { LineRight input.now out.old out.new result }
{
    if out.len() < LINE_ROOM {
        return 0;
    }
    let mut table = [0u64; ENTRIES];
    let mut marks = [0u16; ENTRIES];
    let mut useful = [0u16; ENTRIES];
    let mut run = [0u8; ENTRIES];
    line_with(input, &mut table, &mut marks, &mut useful, &mut run, out)
}
