// The pairs of a line, written.
ghost use Rattle.std.specs.Prelude.{[], map, get_or};
ghost use Rattle.text.specs.Bytes.{space, joined};
ghost use Rattle.text_bytes.specs.Writer.{Writes};
ghost use Rattle.grammar.specs.Form.{Kind, write_value, write_pair, write_form};
ghost use Rattle.grammar.specs.Entries.{kind_of, pair_of, form_of};

use grammar::{ANSWERS, Kind, Pair};
use text::{EQUALS_SIGN, SPACE};
use text_bytes::Writer;

// The keyword at a place; nothing where there is none.
fn put_keyword(w: &mut Writer<'_>, words: &[&[u8]], place: u16)
    ensures { Writes w.old w.new (get_or (map (λ word. word.now) words.now) place []) }
{
    if let Some(word) = words.get(usize::from(place)) {
        w.put_bytes(word);
    }
}

fn put_value(w: &mut Writer<'_>, kind: Kind, n: u16)
    ensures { Writes w.old w.new (write_value (kind_of kind) n) }
{
    match kind {
        Kind::Number(_) => w.put_decimal(u32::from(n)),
        Kind::Keyword(words) => put_keyword(w, words, n),
        Kind::Decision => put_keyword(w, ANSWERS, n),
    }
}

pub(super) fn put_pair(w: &mut Writer<'_>, pair: Pair, n: u16)
    ensures { Writes w.old w.new (write_pair (pair_of pair) n) }
{
    w.put_bytes(pair.key);
    w.put_byte(EQUALS_SIGN);
    put_value(w, pair.kind, n);
}

// The pairs of a form, a space before each; nothing after a no.
pub(super) fn put_pairs(w: &mut Writer<'_>, form: &[Pair], values: &[u16])
    ensures { Writes w.old w.new (joined space (write_form (form_of form.now) values.now)) }
{
    for (pair, n) in form.iter().zip(values) {
        w.put_byte(SPACE);
        put_pair(w, *pair, *n);
        if pair.kind.stops(Ok(*n)) {
            return;
        }
    }
}
