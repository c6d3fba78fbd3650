// Searching a model for a run that a rule matches.
ghost use Rattle.search.specs.Answer as search;
ghost use Rattle.exports.specs.Promise.{GcSearches, GcSearchesTrimmed};

use c_answers::searching::GcSearched;

// Searches the model for the rule.
#[unsafe(no_mangle)]
pub extern "C" fn gc_search(
    rule: &[u8],
    model: &[u8],
    table: &mut [u64],
    work1: &mut [u16],
    work2: &mut [u16],
    run: &mut [u8],
) -> GcSearched
    ensures { GcSearches rule.now model.now (search.slices table.old work1.old work2.old run.old) (search.slices table.new work1.new work2.new run.new) result }
{
    exports::searching::gc_search(rule, model, table, work1, work2, run)
}

// The same over the trimmed table of the rule.
#[unsafe(no_mangle)]
pub extern "C" fn gc_search_trimmed(
    rule: &[u8],
    model: &[u8],
    table: &mut [u64],
    work1: &mut [u16],
    work2: &mut [u16],
    run: &mut [u8],
) -> GcSearched
    ensures { GcSearchesTrimmed rule.now model.now (search.slices table.old work1.old work2.old run.old) (search.slices table.new work1.new work2.new run.new) result }
{
    exports::searching::gc_search_trimmed(rule, model, table, work1, work2, run)
}
