// The search over any table that serves a rule: a shortest match of the model, the first in state order, and the pair count.
ghost use Rattle.std.specs.Prelude.{◌*◌, ◌≤◌, length};
ghost use Rattle.tables.specs.Beyond.{Beyond};
ghost use Rattle.automata.specs.Table.{table_states};
ghost use Rattle.models.specs.Model.{Run};
ghost use Rattle.levels.specs.Lent.{model_in_of, table_in, LentTable, LentLetters, pair_count};
ghost use Rattle.levels.specs.inner.Through.{its_model, its_table};
ghost use Rattle.levels.specs.inner.Passes.{Workspace, useful_sets, Unmarked, NoSets};
ghost use Rattle.passes.specs.Told.{Answers, SearchedTable};

use crate::backward::backward;
use crate::choose::pick;
use automata::{STATES, TABLE_ENTRIES};
use levels::forward::forward;
use levels::marks::clear;
use levels::rows::model_rows;
use levels::searching::Searching;
use levels::shape::{PAIRS, Sizes, USEFUL_SETS};

// What a search answers: the length of the match that the output begins with, if there is one; and how many pairs are
// within that length, or there at all.
#[derive(Clone, Copy, Debug, PartialEq, Eq)]
pub struct Searched {
    pub found: Option<usize>,
    pub pairs: usize,
}

// The passes, on marks that are all 0 and useful sets that are all empty.
fn passes(
    search: &Searching,
    marks: &mut [u16],
    queue: &mut [u16],
    useful: &mut [u64],
    run: &mut [u8],
) -> Searched
    requires { Workspace marks.old queue.old × (useful_sets ≤ length useful.old) × (pair_count ≤ length run.old) × Unmarked marks.old × NoSets useful.old }
    ensures { Answers Run (its_model search.now) (its_table search.now) result run.old run.new × Beyond (table_states * search.now.sizes.states) marks.old marks.new × Beyond pair_count queue.old queue.new }
{
    let end = forward(search, marks, queue);
    let pairs = end.count;
    if end.found {
        let level = end.level;
        backward(search, marks, &queue[..pairs], useful, level);
        pick(search, marks, useful, run, level);
        let long = level as usize;
        return Searched {
            found: Some(long),
            pairs,
        };
    }
    Searched { found: None, pairs }
}

// The search. `marks` and `queue` are working slices: whatever they hold, their first 4,096 entries are 0 at the end.
pub fn search_table(
    table: &[u64],
    letters: &[u8],
    successors: &[u64],
    marks: &mut [u16],
    queue: &mut [u16],
    run: &mut [u8],
    sizes: Sizes,
) -> Searched
    requires { LentTable table.now sizes.weight × LentLetters letters.now sizes.states × (sizes.states ≤ length successors.now) × (pair_count ≤ length marks.old) × (pair_count ≤ length queue.old) × (pair_count ≤ length run.old) }
    ensures { SearchedTable Run (model_in_of sizes letters.now successors.now) (table_in sizes table.now) result marks.old marks.new queue.old queue.new run.old run.new }
{
    let mut rows = [0u64; TABLE_ENTRIES];
    let mut useful = [0u64; USEFUL_SETS];
    model_rows(table, letters, &mut rows, sizes);
    clear(marks, PAIRS);
    let search = Searching {
        table,
        letters,
        successors,
        rows: &rows,
        sizes,
    };
    let answer = passes(&search, marks, queue, &mut useful, run);
    // The passes mark no pair beyond the rows of the model's states.
    let used = STATES * sizes.states;
    clear(marks, used);
    clear(queue, PAIRS);
    answer
}
