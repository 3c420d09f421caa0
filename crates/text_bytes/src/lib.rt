// Bytes read and written as document 01's texts: parts between separators, key=value pairs, decimal
// numbers. Every text, place and length gets an answer. The definitions are crate text's.
#![tactic(auto)]

mod decimals;
mod pairs;
mod parts;
mod pieces;
mod writer;

pub use decimals::read_decimal;
pub use pairs::{is_keyword, is_pair, value_of};
pub use parts::{after_part, place_of};
pub use pieces::{from, part_at, same, until};
pub use writer::Writer;
