// What a set of states is led by: a table in whatever layout, and the table itself.
ghost use Rattle.std.specs.Prelude.{◌≡◌, ◌<◌, ◌≤◌, ℕ, List, length};
ghost use Rattle.definitions.specs.Definition2.{letter_count};
ghost use Rattle.automata.specs.Table.{table_entries};
ghost use Rattle.steps.specs.Moves.{advanced};

// A table as it is stored: what it leads to is all that a walk asks of it.
pub trait Layout {
    // the labels that it stands for
    ghost table: { Self → List ℕ };

    // How many entries it has.
    fn entries(&self) -> usize
        ensures { result ≡ length (table self.now) };

    // The states that some member of the set reaches under the letter.
    fn advance(&self, set: u64, letter: u8) -> u64
        requires { (table_entries ≤ length (table self.now)) × (letter < letter_count) }
        ensures { result ≡ advanced (table self.now) set letter };
}

// The labels by pairs of states.
#[derive(Clone, Copy, Debug)]
pub struct Labels<'a>(pub &'a [u64]);

impl Layout for Labels<'_> {
    ghost table = { λ it. it.0.now };

    #[inline]
    fn entries(&self) -> usize {
        self.0.len()
    }

    #[inline]
    fn advance(&self, set: u64, letter: u8) -> u64 {
        steps::advance(self.0, set, letter)
    }
}
