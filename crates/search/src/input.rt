// What every call that searches begins and ends with: reading, before anything is changed, and the search of the model that was read.
ghost use Rattle.std.specs.Prelude.{◌≡◌, ◌≤◌, length};
ghost use Rattle.bits.specs.Says.{Says};
ghost use Rattle.automata.specs.Table.{table_of};
ghost use Rattle.models.specs.Stored.{model_of, Held};
ghost use Rattle.lasting.specs.Endless.{LastingRun};
ghost use Rattle.levels.specs.Lent.{LentTable, pair_count};
ghost use Rattle.passes.specs.Told.{SearchedTable};
ghost use Rattle.search.specs.Answer.{slices, LongEnough};
ghost use Rattle.search.specs.Input.{InputRight};
ghost use Rattle.search.specs.inner.Inputs.{InputAnswers};

use crate::Refusal;
use automata::TABLE_ENTRIES;
use lasting::alive::without_dead_ends;
use levels::shape::{PAIRS, Sizes};
use models::ModelData;
use passes::inner::{Searched, search_table};
use rules::Known;

// What is known of the rule, or why nothing is searched; and beside it the model: one with no states where it is refused.
#[derive(Drop)]
pub struct InputRead {
    pub answer: Result<Known, Refusal>,
    pub model: ModelData,
}

// Whether each of the four slices has 4,096 entries.
fn long_enough(table: &[u64], marks: &[u16], useful: &[u16], run: &[u8]) -> bool
    ensures { Says result (LongEnough (slices table.now marks.now useful.now run.now)) }
{
    if table.len() < TABLE_ENTRIES {
        return false;
    }
    if marks.len() < PAIRS {
        return false;
    }
    if useful.len() < PAIRS {
        return false;
    }
    PAIRS <= run.len()
}

// The rule is read, and its refusals come before the model's, and these before a short slice.
fn input_answer(
    rule: &[u8],
    model: Result<(), models::Refusal>,
    long: bool,
) -> Result<Known, Refusal>
    ensures { InputAnswers rule.now model long result }
{
    let known = rules::read_rule(rule)?;
    model?;
    if !long {
        return Err(Refusal::ShortSlice);
    }
    Ok(known)
}

// Reads the rule and the model and measures the slices: all refusals of a call that searches. It is kept out of the compiled `search`,
// which then goes into its callers: what is refused waits for no table to be set to 0.
#[inline(never)]
#[tactic(auto, using(crate::proofs::Whole::input_right))]
pub fn read_input(
    rule: &[u8],
    model: &[u8],
    table: &[u64],
    marks: &[u16],
    useful: &[u16],
    run: &[u8],
) -> InputRead
    ensures { InputRight rule.now model.now (slices table.now marks.now useful.now run.now) result }
{
    let read = models::read_model(model);
    let long = long_enough(table, marks, useful, run);
    let answer = input_answer(rule, read.answer, long);
    InputRead {
        answer,
        model: read.model,
    }
}

// Searches the model that was read over a table of so many states. Only runs that can be continued for ever count: the states from which
// no endless run leaves are taken out, and the search over the table is given what is left.
pub fn search_stored(
    model: ModelData,
    table: &[u64],
    weight: usize,
    finals: u64,
    marks: &mut [u16],
    useful: &mut [u16],
    run: &mut [u8],
) -> Searched
    requires { Held model × LentTable table.now weight × (pair_count ≤ length marks.old) × (pair_count ≤ length useful.old) × (pair_count ≤ length run.old) }
    ensures { SearchedTable LastingRun (model_of model) (table_of table.now weight finals) result marks.old marks.new useful.old useful.new run.old run.new }
{
    let alive = without_dead_ends(model);
    let letters = alive.letters;
    let successors = alive.successors;
    let sizes = Sizes {
        states: alive.states,
        initial: alive.initial,
        weight,
        finals,
    };
    search_table(table, &letters, &successors, marks, useful, run, sizes)
}
