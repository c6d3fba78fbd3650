// Judging letters by a rule.
ghost use Rattle.exports.specs.Promise.{GcJudges};

use c_answers::judging::GcJudged;

// Judges the letters by the rule.
#[unsafe(no_mangle)]
pub extern "C" fn gc_judge(rule: &[u8], letters: &[u8]) -> GcJudged
    ensures { GcJudges rule.now letters.now result }
{
    exports::judging::gc_judge(rule, letters)
}
