// Taking the states that do no work out of a table.
ghost use Rattle.exports.specs.Promise.{GcTrims};

use c_answers::trimming::GcTrimmed;

// Trims the table of that weight and those finals in the slice.
#[unsafe(no_mangle)]
pub extern "C" fn gc_trim(table: &mut [u64], weight: u64, finals: u64) -> GcTrimmed
    ensures { GcTrims table.old table.new weight finals result }
{
    exports::trimming::gc_trim(table, weight, finals)
}
