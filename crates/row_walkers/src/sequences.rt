// A whole sequence of letters, over rows.
ghost use Rattle.std.specs.Prelude.{◌≡◌};
ghost use Rattle.walkers.specs.Walks.{ending, follow_of, Follows};
ghost use Rattle.letter_rows.specs.Layouts.{table_by};

use crate::layout::Rows;
use walkers::Refusal;

// Whether the letters lead from state 0 to a final state.
#[tactic(auto, using(walkers::proofs::Answers::follow_begun, walkers::proofs::Once::follows))]
pub fn follow_rows(rows: &[u64], finals: u64, letters: &[u8]) -> Result<bool, Refusal>
    ensures result_value { ending result ≡ follow_of (table_by rows.now) finals letters.now }
    ensures follows { Follows (table_by rows.now) finals letters.now result }
{
    walkers::follow_on(&Rows(rows), finals, letters)
}
