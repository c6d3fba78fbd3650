// Following a whole sequence over a table, or over its rows by letter.
ghost use Rattle.std.specs.Prelude.{◌≡◌};
ghost use Rattle.walkers.specs.Walks.{follow_of};
ghost use Rattle.letter_rows.specs.Layouts.{table_by};
ghost use Rattle.c_answers.specs.Numbers.{moved_numbers_of};

use c_answers::following::GcMoved;

// Follows the letters over the table from state 0.
#[unsafe(no_mangle)]
pub extern "C" fn gc_follow(table: &[u64], finals: u64, letters: &[u8]) -> GcMoved
    ensures { result ≡ moved_numbers_of (follow_of table.now finals letters.now) }
{
    exports::following::gc_follow(table, finals, letters)
}

// Follows the letters over rows by letter from state 0.
#[unsafe(no_mangle)]
pub extern "C" fn gc_follow_rows(rows: &[u64], finals: u64, letters: &[u8]) -> GcMoved
    ensures { result ≡ moved_numbers_of (follow_of (table_by rows.now) finals letters.now) }
{
    exports::following::gc_follow_rows(rows, finals, letters)
}
