// Runs the papers' cases and prints what came out, a line for each; the file stdout holds what should come out.
#![tactic(auto)]

mod agree;
mod bytes;
mod draws;
mod judge_cases;
mod rule_cases;
mod show;
mod table_cases;
mod walk_cases;

use std::io;

fn main(rt: HostRuntime) -> io::Result<()> {
    let mut space = [0u8; 1024];
    let mut second = [0u8; 1024];
    let mut table = [0u64; 4096];
    rule_cases::run(&rt, &mut space)?;
    judge_cases::run(&rt, &mut space)?;
    table_cases::run(&rt, &mut space, &mut table)?;
    walk_cases::run(&rt, &mut space, &mut table)?;
    agree::run(&rt, &mut space, &mut second, &mut table)
}
