// What texts of bytes are: parts between separators, key=value pairs, decimal numbers, and writing into
// lent bytes. The functions stand in `text_bytes`.
#![tactic(auto)]

// The bytes with a meaning of their own.
pub const LINE_FEED: u8 = b'\n';

pub const SPACE: u8 = b' ';

pub const EQUALS_SIGN: u8 = b'=';

// Why a text is none of the values that are allowed.
#[derive(Clone, Copy, Debug, PartialEq, Eq)]
pub enum ValueError {
    // no value at all; of a number: a byte that is no digit, a leading zero, or no byte
    Malformed,
    // another value; of a number: one above the limit
    Outside,
}
