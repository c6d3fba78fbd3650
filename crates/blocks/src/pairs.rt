// Where the pairs of `&&` stand in the table, and their operands in the copy.
ghost use Rattle.std.specs.Prelude.{◌+◌, ◌*◌, ◌<◌, ◌≤◌};
ghost use Rattle.automata.specs.Table.{table_states};

// The pairs that stand at base in the table, of m states and n. The first operand stands in a copy at 0, and the second at `second`.
#[derive(Clone, Copy, Debug, PartialEq, Eq)]
pub struct Pairs {
    pub base: usize,
    pub m: usize,
    pub n: usize,
    pub second: usize,
    pub ghost some: { 0 < n },
    pub ghost square: { base + m * n ≤ table_states },
    pub ghost beside: { m ≤ second },
    pub ghost last: { second + n ≤ table_states },
}
