// The numbers of an op line's reading and writing, zero for success.
ghost use Rattle.std.specs.Prelude.{◌≡◌};
ghost use Rattle.grammar.specs.Values.{number_of};
ghost use Rattle.op_lines.specs.Lines.{answer_of, written_of};

use grammar::LineError;
use op_lines::WriteError;

// A line's refusal.
pub(super) fn line_error_number(error: LineError) -> u16
    ensures { result ≡ number_of error }
{
    match error {
        LineError::Malformed => 20,
        LineError::UnknownOp => 21,
        LineError::OutsideField => 22,
    }
}

pub fn op_line_number_of(read: Result<u16, LineError>) -> u16
    ensures { result ≡ (answer_of read).number }
{
    match read {
        Ok(_) => 0,
        Err(error) => line_error_number(error),
    }
}

pub fn written_line_number_of(written: Result<usize, WriteError>) -> u16
    ensures { result ≡ (written_of written).number }
{
    match written {
        Ok(_) => 0,
        Err(WriteError::UndefinedWord) => 13,
        Err(WriteError::TooShort) => 24,
    }
}
