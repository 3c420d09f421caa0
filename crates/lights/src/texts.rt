// Texts: their parts, and words in hexadecimal digits.
pub mod pieces;
pub mod words;
