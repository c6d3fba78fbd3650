// Reads one input from standard input and prints its line: a byte that says how long the rule is, the rule, and the model.
// Where a read or a write fails there is no verdict, and standard error says so.
#![tactic(auto)]

ghost use Rattle.std.specs.Prelude.{take};
ghost use Rattle.rulecheck.specs.Printed.{Lent, PrintedFor};

use lines::LINE_ROOM;
use std::io;
use writing::front;

// The length byte, a rule of 255 bytes and 705 of the model: what comes after never changes the line.
const INPUT_ROOM: usize = 961;

// The line and the newline that closes it.
const OUTPUT_ROOM: usize = LINE_ROOM + 1;

const NEWLINE: u8 = 10;

// What standard error says before the system's own words.
const INPUT_FAILED: &str = "rulecheck: standard input could not be read, no verdict";

const OUTPUT_FAILED: &str = "rulecheck: standard output could not be written, no verdict";

// All but the system's calls: the first `long` bytes of `space` were read, and `out` is to begin with what is printed, so many bytes of it.
fn printed(space: &[u8], long: usize, out: &mut [u8]) -> usize
    requires { Lent space.now long out.old }
    ensures { PrintedFor (take long space.now) out.new result }
{
    let end = lines::line(front(space, long), &mut out[..LINE_ROOM]);
    out[end] = NEWLINE;
    end + 1
}

// Says on standard error what failed, and why. Where that cannot be written either, nobody can be told.
fn fail(rt: &impl Eprint, what: &str, error: io::Error) {
    let _ = eprintln!(rt; "{what}: {error}");
}

// Prints all of `bytes`, or says on standard error that it could not.
fn print(rt: &(impl Print + Eprint), bytes: &[u8]) {
    if let Err(error) = rt.write_all(bytes) {
        fail(rt, OUTPUT_FAILED, error);
    }
}

fn main(rt: HostRuntime) {
    let mut space = [0u8; INPUT_ROOM];
    let mut out = [0u8; OUTPUT_ROOM];
    match streams::read_input(&mut rt.stdin(), &mut space) {
        Ok(long) => {
            let end = printed(&space, long, &mut out);
            print(&rt, &out[..end]);
        }
        Err(error) => fail(&rt, INPUT_FAILED, error),
    }
}
