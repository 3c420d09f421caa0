// A line, read.
ghost use Rattle.std.specs.Prelude.{IsTrue, ◌≡◌, List, ℕ, [], ◌∷◌, IfSome};
ghost use Rattle.std.specs.Slice.Iter.{split_callee, split_steps};
ghost use Rattle.std.specs.Option.{option_map};
ghost use Rattle.text.specs.Bytes.{value_of};
ghost use Rattle.text.specs.Number.{read_number};
ghost use Rattle.word.specs.Profile.{LP5523, ◌to◌};
ghost use Rattle.grammar.specs.Form.{held};
ghost use Rattle.grammar.specs.Grammar.{read_parts, read_line};
ghost use Rattle.grammar.specs.Values.{padded, reading_of};
ghost use Rattle.grammar.specs.Entries.{form_of, fits};
ghost use Rattle.grammar.specs.internal.Tables.{line_read_of};
ghost use Rattle.line_reader.specs.internal.Steps.{Gives, first_of, form_of_op, form_after, refused_op};

use crate::forms::read_form;
use crate::shapes::unknown_keyword;
use crate::values::{read_number, read_op_name};
use grammar::{LineError, LineKind, PLAN, Pair, Range, Values, op_lines};
use std::slice::Split;
use text::{SPACE, ValueError};

// The value of a part that has to be this key's number, from `least` to `most`.
fn read_numbered(part: &[u8], key: &[u8], least: u16, most: u16) -> Result<u16, ValueError>
    ensures { result ≡ held (least to most ∷ []) (read_number 65535 (value_of key.now part.now)) }
{
    read_number(&[Range { least, most }], text_bytes::value_of(part, key))
}

// The first value of a line.
#[tactic(auto, unfolding(crate::specs::internal::Steps::first_of))]
fn read_first(part: &[u8], kind: LineKind) -> Result<u16, ValueError>
    ensures { result ≡ first_of kind part.now }
{
    match kind {
        LineKind::Op => read_op_name(text_bytes::value_of(part, b"op")),
        LineKind::Plan(engine) => read_numbered(part, b"engine", engine, engine),
        LineKind::Row => read_numbered(part, b"row", 0, u16::MAX),
        LineKind::Spare => read_numbered(part, b"spare", 0, u16::MAX),
    }
}

// The form of an operation, by its place; none where it is unknown.
fn form_of_op(op: Result<u16, ValueError>) -> Option<&'static [Pair]>
    ensures form { option_map (λ form. form_of form.now) result ≡ form_of_op op }
    ensures room { IfSome result (λ form. IsTrue (fits form.now)) }
{
    let place = op.ok()?;
    Some(op_lines().get(usize::from(place))?.form)
}

// The form by which a line goes on after its first value; none where its op is unknown.
#[tactic(auto, unfolding(crate::specs::internal::Steps::form_after))]
fn form_after(kind: LineKind, first: Result<u16, ValueError>) -> Option<&'static [Pair]>
    ensures form { option_map (λ form. form_of form.now) result ≡ form_after kind first }
    ensures room { IfSome result (λ form. IsTrue (fits form.now)) }
{
    match kind {
        LineKind::Op => form_of_op(first),
        LineKind::Plan(_) => Some(PLAN),
        LineKind::Row | LineKind::Spare => Some(&[]),
    }
}

// Why an op line is refused whose op is unknown.
fn refused_op<P: FnMut(&u8) -> bool>(
    parts: &mut Split<'_, u8, P>,
    op: Result<u16, ValueError>,
) -> LineError
    requires { P.IsAlwaysCallable (split_callee parts.old) }
    ensures { (ps : List (List ℕ)) → Gives (split_steps P.FnMut) parts.old ps → result ≡ refused_op op ps }
{
    if let Err(ValueError::Outside) = op {
        return unknown_keyword(parts, LineError::UnknownOp);
    }
    LineError::Malformed
}

// A line of one of the kinds. One call of `read_form` serves them all, so that it can be inlined.
fn read_parts<P: FnMut(&u8) -> bool>(
    parts: &mut Split<'_, u8, P>,
    kind: LineKind,
) -> Result<Values, LineError>
    requires { P.IsAlwaysCallable (split_callee parts.old) }
    ensures { (ps : List (List ℕ)) → Gives (split_steps P.FnMut) parts.old ps → result ≡ line_read_of (read_parts LP5523 kind ps) }
{
    let part = parts.next().ok_or(LineError::Malformed)?;
    let first = read_first(part, kind);
    let Some(form) = form_after(kind, first) else {
        return Err(refused_op(parts, first));
    };
    read_form(parts, first, form)
}

// A line without its LF, read: its values, or why it is refused.
pub fn read_line(line: &[u8], kind: LineKind) -> Result<Values, LineError>
    ensures { reading_of result ≡ padded (read_line LP5523 kind line.now) }
{
    read_parts(&mut line.split(|&b| b == SPACE), kind)
}
