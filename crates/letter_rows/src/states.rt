// The words of a layout, state by state. A state has 64 words in each layout: `far` apart from those of the next state, and `near` from each other.
ghost use Rattle.std.specs.Prelude.{◌≡◌, ◌<◌, ◌≤◌, length};
ghost use Rattle.squares.specs.Squares.{side};
ghost use Rattle.automata.specs.Table.{table_states, table_entries};
ghost use Rattle.letter_rows.specs.inner.Blocks.{Lies, ReadOut, WrittenTo, Steps, Carried, CarriedTo};

use automata::STATES;
use squares::{SIDE, turn_over};

// The words at `base`, `base` + `step` and so on.
fn read_block(words: &[u64], base: usize, step: usize) -> [u64; SIDE]
    requires { Lies words.now base step }
    ensures { ReadOut words.now result base step }
{
    std::array::from_fn(|k| words[base + step * k])
}

// The words at these places become the block's.
fn write_block(words: &mut [u64], base: usize, step: usize, block: &[u64])
    requires { (length block.now ≡ side) × Lies words.old base step × (0 < step) }
    ensures { WrittenTo words.old words.new block.now base step side }
{
    for (k, word) in block.iter().enumerate() {
        words[base + step * k] = *word;
    }
}

// The words of state p, carried over.
fn carry(given: &[u64], to: &mut [u64], far: usize, near: usize, p: usize)
    requires { (table_entries ≤ length given.now) × (table_entries ≤ length to.old) × Steps far near × (p < table_states) }
    ensures { Carried given.now to.old to.new far near p }
{
    let mut block = read_block(given, far * p, near);
    turn_over(&mut block);
    write_block(to, near * p, far, &block);
}

// The words of every state.
pub fn carry_all(given: &[u64], to: &mut [u64], far: usize, near: usize)
    requires { (table_entries ≤ length given.now) × (table_entries ≤ length to.old) × Steps far near }
    ensures { CarriedTo given.now to.old to.new far near table_states }
{
    for p in 0..STATES {
        carry(given, to, far, near, p);
    }
}
