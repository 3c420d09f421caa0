// Values, read by their kinds: numbers in their ranges, and keywords.
ghost use Rattle.std.specs.Prelude.{IsTrue, ◌≡◌, ◌≤◌, cond, length, map, nat_le, ◌&&◌, Err};
ghost use Rattle.std.specs.List.{list_any, position};
ghost use Rattle.std.specs.Str.{bytes_eq};
ghost use Rattle.std.specs.Option.{ForSome};
ghost use Rattle.text.specs.Bytes.{is_keyword};
ghost use Rattle.text.specs.Number.{read_number};
ghost use Rattle.text.specs.declared.ValueError.TheVariants.{Malformed};
ghost use Rattle.word.specs.Profile.{LP5523};
ghost use Rattle.grammar.specs.Grammar.{op_names};
ghost use Rattle.line_reader.specs.internal.Steps.{placed};
ghost use Rattle.grammar.specs.Form.{held, read_keyword, read_value};
ghost use Rattle.grammar.specs.declared.Range.{Range};
ghost use Rattle.grammar.specs.declared.OpLine.{OpLine};
ghost use Rattle.grammar.specs.Entries.{range_of, kind_of, is_short};

use grammar::{ANSWERS, Kind, OpLine, Range};
use text::ValueError;

fn is_in(ranges: &[Range], n: u16) -> bool
    ensures { result ≡ list_any (λ (r : Range). nat_le r.least n && nat_le n r.most) ranges.now }
{
    ranges.iter().any(|r| r.contains(n))
}

pub(super) fn read_number(ranges: &[Range], v: &[u8]) -> Result<u16, ValueError>
    ensures { result ≡ held (map range_of ranges.now) (read_number 65535 v.now) }
{
    let read = text_bytes::read_decimal(v, 65_535);
    let Ok(n) = read else {
        // the refusal that was read: `and` gives the other answer only for an Ok
        return read.and(Ok(0));
    };
    let n = n as u16;
    if is_in(ranges, n) {
        return Ok(n);
    }
    Err(ValueError::Outside)
}

// A value that has to be a keyword, with its place among those allowed.
fn keyword_at(v: &[u8], place: Option<usize>) -> Result<u16, ValueError>
    requires { ForSome place (λ k. k ≤ 65535) }
    ensures { result ≡ cond (is_keyword v.now) (placed place) (Err Malformed) }
{
    if !text_bytes::is_keyword(v) {
        return Err(ValueError::Malformed);
    }
    match place {
        Some(k) => Ok(k as u16),
        None => Err(ValueError::Outside),
    }
}

fn read_keyword(words: &[&[u8]], v: &[u8]) -> Result<u16, ValueError>
    requires { length words.now ≤ 65535 }
    ensures { result ≡ read_keyword (map (λ w. w.now) words.now) v.now }
{
    keyword_at(v, words.iter().position(|&word| v == word))
}

fn op_place(ops: &[OpLine], name: &[u8]) -> Option<usize>
    ensures { result ≡ position (λ (op : OpLine). bytes_eq name.now op.name.now) ops.now }
{
    ops.iter().position(|op| name == op.name)
}

// The place of an operation, by its name.
pub(super) fn read_op_name(v: &[u8]) -> Result<u16, ValueError>
    ensures { result ≡ read_keyword (op_names LP5523) v.now }
{
    keyword_at(v, op_place(grammar::op_lines(), v))
}

#[tactic(auto, unfolding(grammar::specs::Form::read_value))]
pub(super) fn read_value(kind: Kind, v: &[u8]) -> Result<u16, ValueError>
    requires { IsTrue (is_short kind) }
    ensures { result ≡ read_value (kind_of kind) v.now }
{
    match kind {
        Kind::Number(ranges) => read_number(ranges, v),
        Kind::Keyword(words) => read_keyword(words, v),
        Kind::Decision => read_keyword(ANSWERS, v),
    }
}
