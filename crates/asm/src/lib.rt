// The sheets of light programs. The rules are document 01's, "The sheet" and its numbers 9, 11 to 13 and
// 20 to 24; specs/ has them. The functions stand in `assembler`, which reads a sheet, and
// `disassembler`, which writes one.
#![tactic(auto)]

ghost use Rattle.std.specs.Prelude.{◌≡◌};
ghost use Rattle.asm.specs.declared.DisassembleError.TheVariants.{Refused};

use grammar::LineError;
use plan::CheckError;

// Why a sheet is refused; lines are counted from 1. `refusal_of` in specs/Answers.antt gives each case's
// number and line.
#[derive(Clone, Copy, Debug, PartialEq, Eq)]
pub enum AssembleError {
    // the lent image doesn't have as many words as the chip
    WrongLength,
    Line { line: u16, error: LineError },
    // not as many lines as plans and words
    WrongLineCount,
    // first above last, or top above bottom
    InvalidRange,
    CodeOverlapsTable,
}

// The assembler's answer as document 01 reports it: its number and line, zeros for success.
#[derive(Clone, Copy, Debug, PartialEq, Eq)]
pub struct LineReport {
    pub number: u16,
    pub line: u16,
}

// Why a plan and its image are not written. `written_of` in specs/Answers.antt gives each case's number.
#[derive(Clone, Copy, Debug, PartialEq, Eq)]
pub enum DisassembleError {
    Refused(CheckError),
    // the lent bytes are fewer than the text's
    TooShort,
}

impl From<CheckError> for DisassembleError {
    ghost from_gives = { λ e r. r ≡ Refused e };

    fn from(error: CheckError) -> DisassembleError {
        DisassembleError::Refused(error)
    }
}
