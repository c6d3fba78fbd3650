// Where a block stands in the table.
ghost use Rattle.std.specs.Prelude.{◌<◌, ◌≤◌};
ghost use Rattle.automata.specs.Table.{table_states};

// A block's states: from its first to the one behind its last.
#[derive(Clone, Copy, Debug, PartialEq, Eq)]
pub struct Span {
    pub first: usize,
    pub end: usize,
    pub ghost some: { first < end },
    pub ghost inside: { end ≤ table_states },
}
