// The reader's answer: a number and a line.
ghost use Rattle.std.specs.Prelude.{◌≡◌};
ghost use Rattle.asm.specs.Answers.{line_report_of};

use crate::op_line::line_error_number;
use asm::{AssembleError, LineReport};
use plan::Plan;

fn reported(number: u16, line: u16) -> LineReport
    ensures { result ≡ record { number = number; line = line } }
{
    LineReport { number, line }
}

pub fn line_report_of(read: Result<Plan, AssembleError>) -> LineReport
    ensures { result ≡ line_report_of read }
{
    match read {
        Ok(_) => reported(0, 0),
        Err(AssembleError::WrongLength) => reported(9, 0),
        Err(AssembleError::Line { line, error }) => reported(line_error_number(error), line),
        Err(AssembleError::WrongLineCount) => reported(23, 0),
        Err(AssembleError::InvalidRange) => reported(11, 0),
        Err(AssembleError::CodeOverlapsTable) => reported(12, 0),
    }
}
