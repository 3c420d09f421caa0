// The writer's answer: as the checker reports, 24 with zeros, and zeros for success.
ghost use Rattle.std.specs.Prelude.{◌≡◌};
ghost use Rattle.asm.specs.Answers.{writing_of};

use crate::verdicts::{report_of, reported};
use asm::DisassembleError;
use plan::Report;
use word::Address;

pub fn written_report_of(written: Result<usize, DisassembleError>) -> Report
    ensures { result ≡ writing_of written }
{
    match written {
        Ok(_) => reported(0, 0, Address(0)),
        Err(DisassembleError::Refused(error)) => report_of(Err(error)),
        Err(DisassembleError::TooShort) => reported(24, 0, Address(0)),
    }
}
