// From 16 bits to the word that they are. The words and the table are crate word's.
#![tactic(auto)]

mod decoder;
mod undefined;

pub use decoder::decode;
pub use undefined::is_undefined;
