// Takes the states that do no work out of a lent table, in place: state 0 stays, and each state on a path from it to a final.
#![tactic(auto)]

ghost use Rattle.std.specs.Prelude.{◌≡◌, ◌≤◌, length};
ghost use Rattle.automata.specs.Table.{table_entries};
ghost use Rattle.trims.specs.Stands.{Stands};
ghost use Rattle.trims.specs.Trimmed.{Trimmed};
ghost use Rattle.trims.specs.Refusals.{number, place};
ghost use Rattle.trims.specs.Answer.{told, TrimRight};

use automata::{STATES, TABLE_ENTRIES};
use definitions::numbers::{NO_TABLE, SHORT_SLICE};

mod outside; // what refusal 24 looks for
mod grow; // the states that labels lead to
mod list; // the members of a set, in rising order
mod moves; // labels and finals at their new numbers

// Why a table is not trimmed.
#[derive(Clone, Copy, Debug, PartialEq, Eq)]
pub enum Refusal {
    // the slice is too short for a table
    ShortTable,
    // the weight is 0 or above 64, or a final or a label lies outside it
    NoTable,
}

impl Refusal {
    // The refusal's number.
    pub fn number(self) -> u64
        ensures { result ≡ number self }
    {
        match self {
            Refusal::ShortTable => SHORT_SLICE,
            Refusal::NoTable => NO_TABLE,
        }
    }

    // Its place: no byte is at fault.
    pub fn place(self) -> usize
        ensures { result ≡ place self }
    {
        match self {
            Refusal::ShortTable => 0,
            Refusal::NoTable => 0,
        }
    }
}

// What a trimmed table is besides its labels: its weight, and the set of its final states.
#[derive(Clone, Copy, Debug, PartialEq, Eq)]
pub struct TrimmedTable {
    pub weight: usize,
    pub finals: u64,
}

// Trims a table that stands inside its weight.
pub fn trim_standing(table: &mut [u64], weight: usize, finals: u64) -> TrimmedTable
    requires { (table_entries ≤ length table.old) × Stands table.old weight finals }
    ensures { Trimmed table.old table.new weight finals result.weight result.finals }
{
    let kept = grow::kept(table, weight, finals);
    let mut from = [0usize; STATES];
    let count = list::list(&mut from, kept);
    let from = &from[..count];
    moves::move_labels(table, from, weight);
    let moved = moves::moved_finals(from, finals);
    TrimmedTable {
        weight: count,
        finals: moved,
    }
}

// Trims the table of that weight and those finals: any slice has one answer, and a refusal leaves it as it was.
pub fn trim(table: &mut [u64], weight: usize, finals: u64) -> Result<TrimmedTable, Refusal>
    ensures { TrimRight table.old table.new weight finals (told result) }
{
    if table.len() < TABLE_ENTRIES {
        return Err(Refusal::ShortTable);
    }
    if !outside::stands(table, weight, finals) {
        return Err(Refusal::NoTable);
    }
    Ok(trim_standing(table, weight, finals))
}
