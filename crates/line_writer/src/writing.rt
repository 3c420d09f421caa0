// A line, written.
ghost use Rattle.std.specs.Prelude.{◌≡◌, [], ◌∷◌};
ghost use Rattle.text.specs.Bytes.{space, join};
ghost use Rattle.text_bytes.specs.Writer.{Writes};
ghost use Rattle.word.specs.Profile.{LP5523};
ghost use Rattle.word.specs.Field.{upto};
ghost use Rattle.grammar.specs.Form.{number, write_form};
ghost use Rattle.grammar.specs.Grammar.{number16, write_op, write_line};
ghost use Rattle.grammar.specs.Entries.{form_of};

use crate::pairs::put_pairs;
use grammar::{LineKind, PLAN, Pair, Values};
use text::EQUALS_SIGN;
use text_bytes::Writer;

// The operation's name and the pairs of its form; no name and no pairs where there is no such operation.
fn put_op(w: &mut Writer<'_>, values: Values)
    ensures { Writes w.old w.new (join space (write_op LP5523 values)) }
{
    w.put_bytes(b"op=");
    let Some(op) = grammar::op_lines().get(usize::from(values[0])) else {
        return;
    };
    w.put_bytes(op.name);
    put_pairs(w, op.form, &values[1..]);
}

// A line that begins with a number, then the pairs of a form.
fn put_numbered(w: &mut Writer<'_>, key: &[u8], form: &[Pair], values: Values)
    ensures { Writes w.old w.new (join space (write_form (record { key = key.now; kind = number (upto 65535) } ∷ form_of form.now) values)) }
{
    w.put_bytes(key);
    w.put_byte(EQUALS_SIGN);
    w.put_decimal(u32::from(values[0]));
    put_pairs(w, form, &values[1..]);
}

// Writes a line with these values, without its LF.
pub fn put_line(w: &mut Writer<'_>, kind: LineKind, values: Values)
    ensures { Writes w.old w.new (write_line LP5523 kind values) }
{
    match kind {
        LineKind::Op => put_op(w, values),
        LineKind::Plan(_) => put_numbered(w, b"engine", PLAN, values),
        LineKind::Row => put_numbered(w, b"row", &[], values),
        LineKind::Spare => put_numbered(w, b"spare", &[], values),
    }
}
