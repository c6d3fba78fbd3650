// Building a rule's table.
ghost use Rattle.exports.specs.Promise.{GcBuilds};

use c_answers::building::GcBuilt;

// Builds the rule's table in the slice.
#[unsafe(no_mangle)]
pub extern "C" fn gc_build(rule: &[u8], table: &mut [u64]) -> GcBuilt
    ensures { GcBuilds rule.now table.old table.new result }
{
    exports::building::gc_build(rule, table)
}
