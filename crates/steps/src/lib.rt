// One step of a set of table states under a letter, over whatever table is lent.
#![tactic(auto)]

ghost use Rattle.std.specs.Prelude.{◌≡◌, ◌<◌, ◌≤◌, length};
ghost use Rattle.definitions.specs.Definition2.{letter_count};
ghost use Rattle.automata.specs.Table.{table_states, table_entries};
ghost use Rattle.steps.specs.Moves.{row_of, advanced};

use automata::STATES;
use automata::step::in_label;
use bits::rising::members;
use bits::those::those;

pub mod rows; // a table's rows by letter

// The states that p reaches under the letter.
fn row(table: &[u64], p: usize, letter: u8) -> u64
    requires { (table_entries ≤ length table.now) × (p < table_states) × (letter < letter_count) }
    ensures { result ≡ row_of table.now p letter }
{
    those(STATES, |q| in_label(table, p, q, letter as usize))
}

// The states that some member of the set reaches under the letter: a row for each member, and no other.
pub fn advance(table: &[u64], set: u64, letter: u8) -> u64
    requires { (table_entries ≤ length table.now) × (letter < letter_count) }
    ensures { result ≡ advanced table.now set letter }
{
    let mut reached: u64 = 0;
    for p in members(set) {
        reached |= row(table, p, letter);
    }
    reached
}
