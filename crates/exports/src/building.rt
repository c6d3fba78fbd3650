// Building a rule's table.
ghost use Rattle.exports.specs.Promise.{GcBuilds};

use c_answers::building::{GcBuilt, built_numbers};

// Builds the rule's table in the slice.
pub fn gc_build(rule: &[u8], table: &mut [u64]) -> GcBuilt
    ensures { GcBuilds rule.now table.old table.new result }
{
    let answer = tables::build(rule, table);
    built_numbers(answer)
}
