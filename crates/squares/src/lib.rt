// A square of 64 words by 64 bits, turned over in six rounds: round r exchanges the quarters of each square of 2·2^r by 2·2^r bits.
#![tactic(auto)]

ghost use Rattle.std.specs.Prelude.{◌≡◌, ◌<◌, length};
ghost use Rattle.bits.specs.Says.{Says};
ghost use Rattle.squares.specs.inner.Rounds.{Half, Round, Empty, mixed};
ghost use Rattle.squares.specs.Squares.{side, TurnedOver};

// How many words, and how many bits each.
pub const SIDE: usize = 64;

// Word i after a round: its own bits of one half, and of the other half those of the word that it is exchanged with.
fn mix(from: &[u64], i: usize, r: usize, half: usize, low: u64) -> u64
    requires { (length from.now ≡ side) × (i < side) × Half r half low }
    ensures { result ≡ mixed r from.now i }
{
    if bits::has(i as u64, r) {
        return ((from[i - half] >> half) & low) | (from[i] & !low);
    }
    (from[i] & low) | ((from[i + half] & low) << half)
}

// One round.
fn round(from: &[u64], to: &mut [u64], r: usize, half: usize, low: u64)
    requires { (length from.now ≡ side) × (length to.old ≡ side) × Half r half low }
    ensures { Round r from.now to.new side }
{
    for (i, word) in to.iter_mut().enumerate() {
        *word = mix(from, i, r, half, low);
    }
}

// Whether every word is 0.
fn empty(block: &[u64]) -> bool
    requires { length block.now ≡ side }
    ensures { Says result (Empty block.now) }
{
    block.iter().all(|word| *word == 0)
}

// All rounds: bit j of word i becomes bit i of word j.
fn six_rounds(block: &mut [u64])
    requires { length block.old ≡ side }
    ensures { TurnedOver block.old block.new }
{
    let mut other = [0u64; SIDE];
    round(block, &mut other, 5, 32, 0x0000_0000_FFFF_FFFF);
    round(&other, block, 4, 16, 0x0000_FFFF_0000_FFFF);
    round(block, &mut other, 3, 8, 0x00FF_00FF_00FF_00FF);
    round(&other, block, 2, 4, 0x0F0F_0F0F_0F0F_0F0F);
    round(block, &mut other, 1, 2, 0x3333_3333_3333_3333);
    round(&other, block, 0, 1, 0x5555_5555_5555_5555);
}

// The square turned over; one of zeros, as the states outside a weight have, is not gone over.
pub fn turn_over(block: &mut [u64])
    requires { length block.old ≡ side }
    ensures { TurnedOver block.old block.new }
{
    if empty(block) {
        return;
    }
    six_rounds(block);
}
