// A line of a sheet, written by the grammar's tables. Every place and all values get an answer.
#![tactic(auto)]

mod pairs;
mod writing;

pub use writing::put_line;
