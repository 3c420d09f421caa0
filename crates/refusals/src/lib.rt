// The numbers of document 01, and the values that are reported with them, of every answer that is an enum.
#![tactic(auto)]

mod calls;
mod op_line;
mod reading;
mod verdicts;
mod writing;

pub use calls::{error_number_of, number_of};
pub use op_line::{op_line_number_of, written_line_number_of};
pub use reading::line_report_of;
pub use verdicts::report_of;
pub use writing::written_report_of;
