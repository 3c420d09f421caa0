// A word line of a sheet, read.
ghost use Rattle.std.specs.Prelude.{◌≡◌};
ghost use Rattle.word.specs.Profile.{LP5523};
ghost use Rattle.op_lines.specs.Lines.{answer_of};
ghost use Rattle.asm.specs.Reading.{read_word_line};

use grammar::{LineError, LineKind};
use line_reader::read_line;
use op_codec::assemble_line;

// The word of a line of a kind.
pub(super) fn read_word(part: &[u8], kind: LineKind) -> Result<u16, LineError>
    ensures { answer_of result ≡ read_word_line LP5523 kind part.now }
{
    match kind {
        LineKind::Op => assemble_line(part),
        _ => Ok(read_line(part, kind)?[0]),
    }
}
