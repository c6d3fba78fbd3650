// Rows by letter, as the table whose rows they are.
ghost use Rattle.letter_rows.specs.Layouts.{table_by};

use letter_rows::advance_rows;
use walkers::layouts::Layout;

// The rows of next states by letter and state.
#[derive(Clone, Copy, Debug)]
pub struct Rows<'a>(pub &'a [u64]);

impl Layout for Rows<'_> {
    ghost table = { λ it. table_by it.0.now };

    #[inline]
    fn entries(&self) -> usize {
        self.0.len()
    }

    #[inline]
    fn advance(&self, set: u64, letter: u8) -> u64 {
        advance_rows(self.0, set, letter)
    }
}
