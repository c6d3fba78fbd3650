// Reads a rule's text from standard input and prints its rule's bytes as hexadecimal numbers, or the refusal. A newline may close the text.
// Where a read or a write fails there is no answer, and standard error says so.
#![tactic(auto)]

ghost use Rattle.std.specs.Prelude.{◌≤◌, length, take};
ghost use Rattle.ruletext.specs.Printed.{Lent, PrintedFor};

use std::io;
use text_lines::LINE_ROOM;
use writing::front;

// A text of 1,280 characters, one more, and a newline: what comes after never changes the line.
const INPUT_ROOM: usize = 1282;

// What standard error says before the system's own words.
const INPUT_FAILED: &str = "ruletext: standard input could not be read, no answer";

const OUTPUT_FAILED: &str = "ruletext: standard output could not be written, no answer";

// All but the system's calls: the first `long` bytes of `space` were read, and `out` is to begin with what is printed, so many bytes of it.
fn printed(space: &[u8], long: usize, out: &mut [u8]) -> usize
    requires { Lent space.now long out.old }
    ensures { PrintedFor (take long space.now) out.old out.new result }
{
    text_lines::line(front(space, long), out)
}

// Says on standard error what failed, and why. Where that cannot be written either, nobody can be told.
fn fail(rt: &impl Eprint, what: &str, error: io::Error) {
    let _ = eprintln!(rt; "{what}: {error}");
}

// Prints all of `bytes`, or says on standard error that it could not.
fn print(rt: &(impl Print + Eprint), bytes: &[u8]) {
    if let Err(error) = rt.write_all(bytes) {
        fail(rt, OUTPUT_FAILED, error);
    }
}

fn main(rt: HostRuntime) {
    let mut space = [0u8; INPUT_ROOM];
    let mut out = [0u8; LINE_ROOM];
    match streams::read_input(&mut rt.stdin(), &mut space) {
        Ok(long) => {
            let end = printed(&space, long, &mut out);
            print(&rt, front(&out, end));
        }
        Err(error) => fail(&rt, INPUT_FAILED, error),
    }
}
