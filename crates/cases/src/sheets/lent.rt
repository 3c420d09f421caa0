// Lent memory: what it is before a call, and whether it is so afterwards.
pub const FILL_WORD: u16 = 0x5A5A;

pub const FILL_BYTE: u8 = b'~';

// Whether lent memory has only what it was filled with, in a word.
pub fn kept<T: PartialEq>(lent: &[T], fill: &T) -> &'static str {
    if lent.iter().all(|x| x == fill) {
        "kept"
    } else {
        "changed"
    }
}

// Whether two texts are the same, in a word.
pub fn compared(text: &[u8], other: &[u8]) -> &'static str {
    if text == other { "same" } else { "other" }
}
