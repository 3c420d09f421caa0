// The parts of a text between separators.
use text::EQUALS_SIGN;
use text_bytes::{from, part_at};

// The part with this number, from 0 on; no byte where there is none. Each program has its own: one line.
pub fn nth(s: &[u8], n: usize, d: u8) -> &[u8] {
    s.split(|&b| b == d).nth(n).unwrap_or(b"")
}

// What stands after the first equals sign of a part; no byte where there is none.
pub fn value_of(part: &[u8]) -> &[u8] {
    from(part, part_at(part, 0, EQUALS_SIGN).len() + 1)
}
