// From a word to its 16 bits. The words and the table are crate word's.
#![tactic(auto)]

mod encoder;

pub use encoder::encode;
