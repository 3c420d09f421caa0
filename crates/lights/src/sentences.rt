// What is told: the sentences of answers, and the table of the ops.
pub mod calls;
pub mod filling;
mod lines;
pub mod ops;
pub mod reader;
pub mod say;
pub mod shown;
pub mod templates;
mod values;
pub mod verdicts;
