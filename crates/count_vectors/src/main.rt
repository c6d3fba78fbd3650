// Counted repetition: weights, refusals and their places, tables label by label, and what is accepted, by the plain judge and by the table.
#![tactic(auto)]

mod read_cases;
mod said_cases;
mod show;
mod table_cases;

use std::io;

fn main(rt: HostRuntime) -> io::Result<()> {
    let mut table = [0u64; 4096];
    read_cases::run(&rt)?;
    table_cases::run(&rt, &mut table)?;
    said_cases::run(&rt, &mut table)
}
