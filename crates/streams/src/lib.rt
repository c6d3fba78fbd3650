// An input read to its end: a call that failed is never taken for the end.
#![tactic(auto)]

ghost use Rattle.std.specs.Prelude.{◌-◌, ◌≤◌, length};
ghost use Rattle.streams.specs.Streams.{Kept, Came};

use std::io;
use std::io::{ErrorKind, Read};

// A loop has to end: no input lasts for this many reads.
const MOST_READS: u64 = 1 << 60;

// How much is read at once past what is wanted.
const REST_ROOM: usize = 65536;

// One read to the front of `space`, which has room: a read into no room would look like the end.
// So many bytes more are kept, none where a signal came first; no number: no more will come.
fn read_some(input: &mut impl Read, space: &mut [u8]) -> io::Result<Option<usize>>
    ensures { Came (length space.old) result }
{
    match input.read(space) {
        Ok(0) => Ok(None),
        Ok(more) => Ok(Some(more)),
        Err(error) => {
            if error.kind() == ErrorKind::Interrupted {
                return Ok(Some(0));
            }
            Err(error)
        }
    }
}

// One read past what is wanted: of its bytes none is kept.
fn read_past(input: &mut impl Read, rest: &mut [u8]) -> io::Result<Option<usize>>
    ensures { Came 0 result }
{
    let got = read_some(input, rest)?;
    Ok(got.map(|_| 0))
}

// One read into what is left of `space`; once that is full, into `rest`.
fn read_on(
    input: &mut impl Read,
    space: &mut [u8],
    at: usize,
    rest: &mut [u8],
) -> io::Result<Option<usize>>
    requires { at ≤ length space.old }
    ensures { Came (length space.old - at) result }
{
    if at < space.len() {
        return read_some(input, &mut space[at..]);
    }
    read_past(input, rest)
}

// Reads `input`, which a program gives as its standard input, to its end, keeps of it what fits into `space`, and answers how many bytes these are.
// Where a read failed nothing is said of `space`: no byte in it counts as read.
pub fn read_input(input: &mut impl Read, space: &mut [u8]) -> io::Result<usize>
    ensures { Kept (length space.old) result }
{
    let mut rest = [0u8; REST_ROOM];
    let mut at = 0;
    for _ in 0..MOST_READS {
        let Some(more) = read_on(input, space, at, &mut rest)? else {
            return Ok(at);
        };
        at += more;
    }
    Err(io::Error::new(ErrorKind::TimedOut, "the input did not end"))
}
