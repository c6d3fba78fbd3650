// Follows letters through rows by letter: each call answers what the call of `walkers` answers over the table whose rows they are.
#![tactic(auto)]

ghost use Rattle.std.specs.Prelude.{◌≡◌};
ghost use Rattle.walkers.specs.Steps.{told, given, step_of};
ghost use Rattle.letter_rows.specs.Layouts.{table_by};

use crate::layout::Rows;
use walkers::{Refusal, Step, Walker};

pub mod layout; // rows by letter as a table
pub mod sequences; // a whole sequence at once

// The walker moved by the letter; a refusal gives it back as it came.
#[tactic(auto, using(walkers::proofs::Answers::step_short, walkers::proofs::Answers::step_bad, crate::proofs::Alike::as_short, crate::proofs::Alike::as_long))]
pub fn step_rows(walker: Walker, rows: &[u64], letter: u8) -> Step
    ensures { told result ≡ step_of (table_by rows.now) walker letter }
{
    walkers::step_on(walker, &Rows(rows), letter)
}

// The walker stepped where it stands: it is then what `step_rows` gives back.
pub fn step_rows_lent(walker: &mut Walker, rows: &[u64], letter: u8) -> Result<bool, Refusal>
    ensures { told (given walker.new result) ≡ step_of (table_by rows.now) walker.old letter }
{
    walkers::step_lent_on(walker, &Rows(rows), letter)
}
