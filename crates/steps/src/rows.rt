// A table's rows by letter: at 64·x + p the set of states that letter x leads to from p. A step of a set is then one row for each member.
ghost use Rattle.std.specs.Prelude.{◌≡◌, ℕ, ◌+◌, ◌*◌, ◌<◌, ◌≤◌, T, length, get_or};
ghost use Rattle.bits.specs.Word.{bit};
ghost use Rattle.bits.specs.Sets.{In, Members, Over};
ghost use Rattle.automata.specs.Table.{table_states, table_entries, table_of};
ghost use Rattle.steps.specs.Rows.{Rowed};
ghost use Rattle.steps.specs.inner.Puts.{Adds, Extended, RowPuts, Scatters};

use automata::STATES;
use automata::cells::get;
use bits::rising::members;

// The union of the words that stand at `base` + k for the members k of the set.
pub fn union(words: &[u64], base: usize, set: u64) -> u64
    requires { (k : ℕ) → T (bit set k) → base + k < length words.now }
    ensures { Members result (λ q. Over (In set) (λ k. T (bit (get_or words.now (base + k) 0) q))) }
{
    let mut out: u64 = 0;
    for k in members(set) {
        out |= words[base + k];
    }
    out
}

// A label, and the states that it leads to so far.
#[derive(Drop)]
pub struct Bundle {
    pub label: u64,
    pub to: u64,
}

// Adds the states to the rows of p for the letters of the label.
fn scatter(rows: &mut [u64], p: usize, to: u64, label: u64)
    requires { (table_entries ≤ length rows.old) × (p < table_states) }
    ensures { Adds rows.old rows.new (Scatters p to label) }
{
    for x in members(label) {
        rows[STATES * x + p] |= to;
    }
}

// One label more, from p to q. Columns with the same label are kept together, so that its letters are gone over once for all of them.
fn extend(rows: &mut [u64], p: usize, q: usize, label: u64, bundle: Bundle) -> Bundle
    requires { (table_entries ≤ length rows.old) × (p < table_states) × (q < table_states) }
    ensures { (length rows.new ≡ length rows.old) × Extended p q label bundle.label bundle.to result.label result.to rows.old rows.new }
{
    if label == 0 {
        return bundle;
    }
    let before = bundle.label;
    let to = bundle.to;
    if label == before {
        return Bundle {
            label,
            to: bits::with(to, q),
        };
    }
    scatter(rows, p, to, before);
    Bundle {
        label,
        to: bits::with(0, q),
    }
}

// The rows of p.
fn rows_from(table: &[u64], rows: &mut [u64], weight: usize, used: u64, p: usize)
    requires { (table_entries ≤ length table.now) × (table_entries ≤ length rows.old) × (weight ≤ table_states) × (p < table_states) }
    ensures { Adds rows.old rows.new (RowPuts table.now weight used p) }
{
    let mut bundle = Bundle { label: 0, to: 0 };
    for q in 0..weight {
        let label = get(table, p, q) & used;
        bundle = extend(rows, p, q, label, bundle);
    }
    let label = bundle.label;
    let to = bundle.to;
    scatter(rows, p, to, label);
}

// The rows of every state for the letters in `used`, on rows that are all 0.
pub fn fill_rows(table: &[u64], rows: &mut [u64], weight: usize, used: u64)
    requires { (table_entries ≤ length table.now) × (table_entries ≤ length rows.old) × (weight ≤ table_states) × ((i : ℕ) → get_or rows.old i 0 ≡ 0) }
    ensures { (length rows.new ≡ length rows.old) × Rowed (table_of table.now weight 0) (In used) rows.new }
{
    for p in 0..weight {
        rows_from(table, rows, weight, used, p);
    }
}
