// Large models, put together state by state.
use crate::bytes::put;

// The successors' bytes come last, the lowest first.
fn put_state(out: &mut [u8], at: usize, letter: u8, flag: u8, successors: u64) -> usize {
    let end = put(out, at, &[0x20, letter, flag]);
    put(out, end, &successors.to_le_bytes())
}

// State k of a ring: it leads to the next, 63 to 0. State 0 is initial, and p0 holds in state 33 alone.
fn put_link(out: &mut [u8], at: usize, k: u64) -> usize {
    let letter = if k == 33 { 1 } else { 0 };
    let flag = if k == 0 { 1 } else { 0 };
    put_state(out, at, letter, flag, 1u64 << ((k % 64 + 1) % 64))
}

pub fn put_ring(out: &mut [u8]) -> usize {
    let mut end = 0;
    for k in 0..64 {
        end = put_link(out, end, k);
    }
    end
}

// State k has letter k; all states are initial, and each leads to all.
pub fn put_full(out: &mut [u8]) -> usize {
    let mut end = 0;
    for k in 0..64 {
        end = put_state(out, end, k, 1, !0u64);
    }
    end
}
