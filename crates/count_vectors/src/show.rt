// What came out, as text.
use std::io;

// The members of a set, in rising order, a blank before each.
pub fn members(rt: &impl Print, set: u64) -> io::Result<()> {
    for k in bits::rising::members(set) {
        print!(rt; " {k}")?;
    }
    Ok(())
}

pub fn refused(rt: &impl Print, number: u64, place: usize) -> io::Result<()> {
    print!(rt; "refused {number} at {place}")
}
