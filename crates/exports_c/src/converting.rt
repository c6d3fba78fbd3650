// A table as rows by letter, and back.
ghost use Rattle.exports.specs.Promise.{GcRowsOf, GcTableOf};

use c_answers::converting::GcDone;

// Writes the table's rows by letter.
#[unsafe(no_mangle)]
pub extern "C" fn gc_rows_of(table: &[u64], rows: &mut [u64]) -> GcDone
    ensures { GcRowsOf table.now rows.old rows.new result }
{
    exports::converting::gc_rows_of(table, rows)
}

// Writes the table that has these rows.
#[unsafe(no_mangle)]
pub extern "C" fn gc_table_of(rows: &[u64], table: &mut [u64]) -> GcDone
    ensures { GcTableOf rows.now table.old table.new result }
{
    exports::converting::gc_table_of(rows, table)
}
