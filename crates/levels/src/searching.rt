// What the passes of a search go through: a model, a table, and the table's rows for the model's letters.
ghost use Rattle.std.specs.Prelude.{◌≤◌, ◌<◌, T, length, get_or};
ghost use Rattle.bits.specs.Word.{bit};
ghost use Rattle.bits.specs.Sets.{Members, In};
ghost use Rattle.automata.specs.Table.{table_entries};
ghost use Rattle.steps.specs.Rows.{Into, rows_table};
ghost use Rattle.levels.specs.inner.Passes.{PassInput, HasLetter};

use crate::shape::Sizes;
use automata::STATES;
use steps::rows::union;

// What the letter of a state leads to, by the table's rows, from the table states in the set.
#[inline(always)]
pub(crate) fn onto(letters: &[u8], rows: &[u64], set: u64, t: usize) -> u64
    requires { HasLetter letters.now t × (table_entries ≤ length rows.now) }
    ensures { Members result (Into (rows_table rows.now) (In set) (get_or letters.now t 0)) }
{
    let x = letters[t] as usize;
    union(rows, STATES * x, set)
}

// Slices and sizes that fit each other.
#[derive(Clone, Copy)]
pub struct Searching<'a> {
    pub table: &'a [u64],
    pub letters: &'a [u8],
    pub successors: &'a [u64],
    pub rows: &'a [u64],
    pub sizes: Sizes,
    ghost lent: { PassInput sizes table.now letters.now rows.now },
    ghost long: { sizes.states ≤ length successors.now },
}

impl Searching<'_> {
    // Those of the set that are states of the model.
    #[inline(always)]
    pub fn states_of(&self, set: u64) -> u64
        ensures { Members result (λ t. T (bit set t) × (t < self.now.sizes.states)) }
    {
        set & bits::below(self.sizes.states)
    }

    // What the letter of state t leads to from the table states in the set.
    #[inline(always)]
    pub fn onto(&self, set: u64, t: usize) -> u64
        requires { t < self.now.sizes.states }
        ensures { Members result (Into (rows_table self.now.rows.now) (In set) (get_or self.now.letters.now t 0)) }
    {
        onto(self.letters, self.rows, set, t)
    }
}
