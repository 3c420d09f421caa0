// The line of a code, written as far as there is room.
ghost use Rattle.text_bytes.specs.Writer.{Writes};
ghost use Rattle.word.specs.Profile.{LP5523};
ghost use Rattle.op_lines.specs.Lines.{op_line_of};

use crate::values::values_of;
use grammar::LineKind;
use text_bytes::Writer;

// Writes the line of a code without its LF.
pub fn put_op_line(w: &mut Writer<'_>, code: u16)
    ensures { Writes w.old w.new (op_line_of LP5523 code) }
{
    line_writer::put_line(w, LineKind::Op, values_of(decoder::decode(code)));
}
