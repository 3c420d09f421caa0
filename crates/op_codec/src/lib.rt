// Op lines, read as codes and written from codes; the values of a word's line. The definitions are
// crate op_lines's.
#![tactic(auto)]

mod op_line;
mod reading;
mod values;
mod words;
mod writing;

pub use op_line::put_op_line;
pub use reading::assemble_line;
pub use values::values_of;
pub use words::word_of;
pub use writing::disassemble_word;
