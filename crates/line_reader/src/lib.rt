// A line of a sheet, read by the grammar's tables. Every text gets an answer.
#![tactic(auto)]

mod forms;
mod gathering;
mod reading;
mod shapes;
mod values;

pub use reading::read_line;
