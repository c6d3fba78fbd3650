// A table as rows by letter, and back.
ghost use Rattle.exports.specs.Promise.{GcRowsOf, GcTableOf};

use c_answers::converting::{GcDone, done_numbers};

// Writes the table's rows by letter.
pub fn gc_rows_of(table: &[u64], rows: &mut [u64]) -> GcDone
    ensures { GcRowsOf table.now rows.old rows.new result }
{
    let answer = letter_rows::rows_of(table, rows);
    done_numbers(answer)
}

// Writes the table that has these rows.
pub fn gc_table_of(rows: &[u64], table: &mut [u64]) -> GcDone
    ensures { GcTableOf rows.now table.old table.new result }
{
    let answer = letter_rows::table_of(rows, table);
    done_numbers(answer)
}
