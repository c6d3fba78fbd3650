// A table's two layouts, each made of the other, and a step of a set of states over rows by letter.
#![tactic(auto)]

ghost use Rattle.std.specs.Prelude.{◌≡◌, ◌<◌, ◌≤◌, length};
ghost use Rattle.bits.specs.Says.{Says};
ghost use Rattle.definitions.specs.Definition2.{letter_count};
ghost use Rattle.automata.specs.Table.{table_entries};
ghost use Rattle.steps.specs.Moves.{advanced};
ghost use Rattle.letter_rows.specs.Layouts.{table_by};
ghost use Rattle.letter_rows.specs.Refusals.{number, place};
ghost use Rattle.letter_rows.specs.Answer.{told, RowsRight, TableRight};
ghost use Rattle.letter_rows.specs.inner.Blocks.{BothLong, Steps};
ghost use Rattle.letter_rows.specs.inner.Conversions.{Converts};

use automata::{STATES, TABLE_ENTRIES};
use definitions::numbers::SHORT_SLICE;

mod states; // the words of one state, and of all

// Why nothing is converted.
#[derive(Clone, Copy, Debug, PartialEq, Eq)]
pub enum Refusal {
    // one of the slices is too short for a table
    ShortSlice,
}

impl Refusal {
    // The refusal's number.
    pub fn number(self) -> u64
        ensures { result ≡ number self }
    {
        match self {
            Refusal::ShortSlice => SHORT_SLICE,
        }
    }

    // Its place: no byte is at fault.
    pub fn place(self) -> usize
        ensures { result ≡ place self }
    {
        match self {
            Refusal::ShortSlice => 0,
        }
    }
}

// Whether both slices have the entries of a table.
fn long_enough(given: &[u64], to: &[u64]) -> bool
    ensures { Says result (BothLong given.now to.now) }
{
    TABLE_ENTRIES <= given.len() && TABLE_ENTRIES <= to.len()
}

// Writes the other layout of what is given, where both slices are long enough, and else nothing.
fn convert(given: &[u64], to: &mut [u64], far: usize, near: usize) -> Result<(), Refusal>
    requires { Steps far near }
    ensures { Converts given.now to.old to.new far near (told result) }
{
    if !long_enough(given, to) {
        return Err(Refusal::ShortSlice);
    }
    states::carry_all(given, to, far, near);
    Ok(())
}

// Writes the table's rows by letter: at 64·x + p the set of states that letter x leads to from p.
pub fn rows_of(table: &[u64], rows: &mut [u64]) -> Result<(), Refusal>
    ensures { RowsRight table.now rows.old rows.new (told result) }
{
    convert(table, rows, STATES, 1)
}

// Writes the table that has these rows: at 64·p + q the set of letters that lead from p to q.
pub fn table_of(rows: &[u64], table: &mut [u64]) -> Result<(), Refusal>
    ensures { TableRight rows.now table.old table.new (told result) }
{
    convert(rows, table, 1, STATES)
}

// The states that some member of the set reaches under the letter: one row for each member.
pub fn advance_rows(rows: &[u64], set: u64, letter: u8) -> u64
    requires { (table_entries ≤ length rows.now) × (letter < letter_count) }
    ensures { result ≡ advanced (table_by rows.now) set letter }
{
    let x = letter as usize;
    steps::rows::union(rows, STATES * x, set)
}
