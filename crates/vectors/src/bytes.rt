// A string of bytes that is put together part by part in a lent slice. Each answers the place after what it put; what does not fit is left out.
pub fn put_byte(out: &mut [u8], at: usize, b: u8) -> usize {
    if at < out.len() {
        out[at] = b;
        return at + 1;
    }
    at
}

pub fn put(out: &mut [u8], at: usize, part: &[u8]) -> usize {
    let mut end = at;
    for b in part {
        end = put_byte(out, end, *b);
    }
    end
}

// n times the part.
pub fn put_many(out: &mut [u8], at: usize, part: &[u8], n: usize) -> usize {
    let mut end = at;
    for _ in 0..n {
        end = put(out, end, part);
    }
    end
}

// The first n bytes of what was put together.
pub fn front(space: &[u8], n: usize) -> &[u8] {
    if n <= space.len() { &space[..n] } else { space }
}
