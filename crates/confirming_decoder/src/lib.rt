// The decoder by another method, to compare crate decoder with: a word is read from its place in the
// table and kept where it encodes to the same bits again. It answers for the LP5523 alone.
#![tactic(auto)]

mod decoder;

pub use decoder::decode;
