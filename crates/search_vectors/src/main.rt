// Reads models and searches them, and prints what came out, a line for each; the file stdout holds what should come out.
#![tactic(auto)]

mod bytes;
mod model_bytes;
mod model_cases;
mod search_cases;
mod show;

use std::io;

fn main(rt: HostRuntime) -> io::Result<()> {
    let mut space = [0u8; 1024];
    let mut second = [0u8; 1024];
    model_cases::run(&rt, &mut space)?;
    search_cases::run(&rt, &mut space, &mut second)
}
