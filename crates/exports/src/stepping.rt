// Walkers: a fresh one, and one step, by value or where the walker stands in the host's own record.
ghost use Rattle.std.specs.Prelude.{◌≡◌};
ghost use Rattle.walkers.specs.Steps as walkers;
ghost use Rattle.letter_rows.specs.Layouts.{table_by};
ghost use Rattle.c_answers.specs.Numbers.{walker_from, walker_numbers_of, beside, stepped_numbers_of};

use c_answers::following::GcMoved;
use c_answers::stepping::{
    GcStepped, GcWalker, Stepping, given_back, stepped_numbers, walker_numbers, walker_of,
};
use row_walkers::step_rows;
use walkers::Walker;

fn stepped(walker: GcWalker, table: &[u64], letter: u8) -> Stepping
    ensures { beside result.walker result.says ≡ stepped_numbers_of walker (walkers.step_of table.now (walker_from walker) letter) }
{
    stepped_numbers(walker, walker_of(walker).step(table, letter))
}

// A fresh walker.
pub fn gc_start(finals: u64) -> GcWalker
    ensures { result ≡ walker_numbers_of (walkers.start_of finals) }
{
    walker_numbers(Walker::start(finals))
}

// Steps a walker over the table by the letter, and gives it back.
pub fn gc_step(walker: GcWalker, table: &[u64], letter: u8) -> GcStepped
    ensures { result ≡ stepped_numbers_of walker (walkers.step_of table.now (walker_from walker) letter) }
{
    given_back(stepped(walker, table, letter))
}

// Steps a walker over rows by letter, and gives it back.
pub fn gc_step_rows(walker: GcWalker, rows: &[u64], letter: u8) -> GcStepped
    ensures { result ≡ stepped_numbers_of walker (walkers.step_of (table_by rows.now) (walker_from walker) letter) }
{
    given_back(stepped_numbers(walker, step_rows(walker_of(walker), rows, letter)))
}

// Steps a walker where it stands.
pub fn gc_step_lent(walker: &mut GcWalker, table: &[u64], letter: u8) -> GcMoved
    ensures { beside walker.new result ≡ stepped_numbers_of walker.old (walkers.step_of table.now (walker_from walker.old) letter) }
{
    let s = stepped(*walker, table, letter);
    *walker = s.walker;
    s.says
}
