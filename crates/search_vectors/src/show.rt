// What came out, as text.
use std::io;

pub fn yes_or_no(rt: &impl Print, yes: bool) -> io::Result<()> {
    println!(rt; "{}", if yes { "yes" } else { "no" })
}

pub fn refused(rt: &impl Print, number: u64, place: usize) -> io::Result<()> {
    println!(rt; "refused {number} at {place}")
}
