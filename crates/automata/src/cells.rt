// The label from one state to another: the only place that knows where it stands in the slice.
ghost use Rattle.std.specs.Prelude.{◌≡◌, ◌+◌, ◌*◌, ◌<◌, ◌≤◌, length};
ghost use Rattle.automata.specs.Table.{table_states, cell};
ghost use Rattle.automata.specs.inner.Cells.{Put};

use crate::STATES;

// Where the label from p to q stands: a row for each state, one behind the other. The end of a row, and that of all rows, are places too.
#[inline(always)]
pub fn place(p: usize, q: usize) -> usize
    requires { (p ≤ table_states) × (q ≤ table_states) }
    ensures { result ≡ table_states * p + q }
{
    STATES * p + q
}

// The label from p to q.
pub fn get(t: &[u64], p: usize, q: usize) -> u64
    requires { (table_states * p + q < length t.now) × (p < table_states) × (q < table_states) }
    ensures { result ≡ cell t.now p q }
{
    t[place(p, q)]
}

// The label from p to q becomes v.
pub fn put(t: &mut [u64], p: usize, q: usize, v: u64)
    requires { (table_states * p + q < length t.old) × (p < table_states) × (q < table_states) }
    ensures { Put t.old t.new p (p + 1) q (q + 1) (λ r s. v) }
{
    t[place(p, q)] = v;
}
