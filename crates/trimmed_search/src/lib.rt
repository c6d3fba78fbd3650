// Searches a model for a rule as `search` does, over the rule's table without the states that do no work.
#![tactic(auto)]

ghost use Rattle.search.specs.Answer.{slices, told};
ghost use Rattle.trimmed_search.specs.Answer.{TrimmedSearchRight};

use search::input::{read_input, search_stored};
use search::{Answered, Refusal};
use tables::build_accepted;
use trims::trim_standing;

// The search over the trimmed table: the run and the refusals are those of `search`, the pairs are the trimmed table's, and it is what the slice begins with.
pub fn search_trimmed(
    rule: &[u8],
    model: &[u8],
    table: &mut [u64],
    marks: &mut [u16],
    useful: &mut [u16],
    run: &mut [u8],
) -> Result<Answered, Refusal>
    ensures { TrimmedSearchRight rule.now model.now (slices table.old marks.old useful.old run.old) (slices table.new marks.new useful.new run.new) (told result run.new) }
{
    let input = read_input(rule, model, table, marks, useful, run);
    let known = input.answer?;
    let finals = build_accepted(rule, table);
    let trimmed = trim_standing(table, known.weight, finals);
    let stored = input.model;
    let searched = search_stored(
        stored,
        table,
        trimmed.weight,
        trimmed.finals,
        marks,
        useful,
        run,
    );
    Ok(Answered {
        searched,
        rule: known,
    })
}
