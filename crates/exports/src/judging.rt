// Judging letters by a rule.
ghost use Rattle.exports.specs.Promise.{GcJudges};

use c_answers::judging::{GcJudged, judged_numbers};

// Judges the letters by the rule.
pub fn gc_judge(rule: &[u8], letters: &[u8]) -> GcJudged
    ensures { GcJudges rule.now letters.now result }
{
    judged_numbers(judge::judge(rule, letters))
}
