// The assembler: a sheet, read into a lent image. It is proved equal to asm/specs/Reading.antt for every
// text.
#![tactic(auto)]

mod assembler;
mod lines;
mod plans;
mod words;

pub use assembler::assemble;
pub use plans::engine_plan;
