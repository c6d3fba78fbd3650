// The table's rows by letter, for the letters that the model has.
ghost use Rattle.std.specs.Prelude.{◌≡◌, ℕ, ◌≤◌, length, get_or};
ghost use Rattle.bits.specs.Sets.{Members};
ghost use Rattle.automata.specs.Table.{table_entries};
ghost use Rattle.steps.specs.Rows.{Rowed};
ghost use Rattle.levels.specs.Lent.{LentTable, LentLetters};
ghost use Rattle.levels.specs.inner.Passes.{Used, labels_in};

use crate::shape::Sizes;
use steps::rows::fill_rows;

// The letters that the model has.
fn used_letters(letters: &[u8], states: usize) -> u64
    requires { LentLetters letters.now states }
    ensures { Members result (Used letters.now states) }
{
    let mut set: u64 = 0;
    for t in 0..states {
        let x = letters[t] as usize;
        set = bits::with(set, x);
    }
    set
}

// The rows for them, on rows that are all 0.
pub fn model_rows(table: &[u64], letters: &[u8], rows: &mut [u64], sizes: Sizes)
    requires { LentTable table.now sizes.weight × LentLetters letters.now sizes.states × (table_entries ≤ length rows.old) × ((i : ℕ) → get_or rows.old i 0 ≡ 0) }
    ensures { (length rows.new ≡ length rows.old) × Rowed (labels_in sizes table.now) (Used letters.now sizes.states) rows.new }
{
    let used = used_letters(letters, sizes.states);
    fill_rows(table, rows, sizes.weight, used);
}
