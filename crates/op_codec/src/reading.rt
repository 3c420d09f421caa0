// An op line, read.
ghost use Rattle.std.specs.Prelude.{◌≡◌, ◌<◌, get_or};
ghost use Rattle.word.specs.Profile.{LP5523};
ghost use Rattle.word.specs.Table.{encode_of};
ghost use Rattle.op_lines.specs.Words.{word_of};
ghost use Rattle.op_lines.specs.Lines.{answer_of, assemble_line_of};

use crate::words::word_of;
use grammar::{LineError, LineKind, Values};

// The code of the word that values of an op line stand for.
fn code_of(v: Values) -> Result<u16, LineError>
    requires { get_or v 0 0 < 31 }
    ensures { answer_of result ≡ encode_of LP5523 (word_of LP5523 v) }
{
    encoder::encode(word_of(v)).map_err(|_| LineError::OutsideField)
}

// The code of the word that a line stands for. The line is without its LF.
#[tactic(auto, using(crate::proofs::Line::of_a_row, crate::proofs::Line::code_read, op_lines::proofs::Answered::refused_code))]
pub fn assemble_line(line: &[u8]) -> Result<u16, LineError>
    ensures { answer_of result ≡ assemble_line_of LP5523 line.now }
{
    code_of(line_reader::read_line(line, LineKind::Op)?)
}
