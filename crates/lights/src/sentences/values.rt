// The values that a kind allows, and lists, with what a style puts between them.
ghost use Rattle.std.specs.Prelude.{◌<◌};

use grammar::{ANSWERS, Kind, Pair, Range};
use text_bytes::Writer;

// What stands before the first item of a list, between items, and before the last item.
#[derive(Clone, Copy)]
struct Marks {
    first: &'static [u8],
    between: &'static [u8],
    last: &'static [u8],
}

// What stands about words, between the ends of a range, and between two ranges.
#[derive(Clone, Copy)]
pub struct Style {
    words: Marks,
    to: &'static [u8],
    or: &'static [u8],
}

// Keys in a sentence.
const KEYS: Marks = Marks {
    first: b"",
    between: b", ",
    last: b" and ",
};

// Values in a sentence.
pub const VALUES: Style = Style {
    words: Marks {
        first: b"",
        between: b", ",
        last: b" or ",
    },
    to: b" to ",
    or: b" or ",
};

// The pairs of an op line.
const PAIRS: Marks = Marks {
    first: b" ",
    between: b" ",
    last: b" ",
};

// Their values.
const PAIR_VALUES: Style = Style {
    words: Marks {
        first: b"",
        between: b"/",
        last: b"/",
    },
    to: b"..",
    or: b",",
};

fn put_range(w: &mut Writer, range: Range, to: &[u8]) {
    w.put_decimal(u32::from(range.least));
    if range.least != range.most {
        w.put_bytes(to);
        w.put_decimal(u32::from(range.most));
    }
}

fn put_ranges(w: &mut Writer, ranges: &[Range], style: Style) {
    let mut before: &[u8] = b"";
    for &range in ranges {
        w.put_bytes(before);
        put_range(w, range, style.to);
        before = style.or;
    }
}

impl Marks {
    // What stands before item i of so many.
    fn before(self, i: usize, count: usize) -> &'static [u8]
        requires { i < count }
    {
        if i == 0 {
            self.first
        } else if i + 1 < count {
            self.between
        } else {
            self.last
        }
    }
}

fn put_words(w: &mut Writer, words: &[&[u8]], marks: Marks) {
    for (i, word) in words.iter().enumerate() {
        w.put_bytes(marks.before(i, words.len()));
        w.put_bytes(word);
    }
}

pub(super) fn put_allowed(w: &mut Writer, kind: Kind, style: Style) {
    match kind {
        Kind::Number(ranges) => put_ranges(w, ranges, style),
        Kind::Keyword(words) => put_words(w, words, style.words),
        Kind::Decision => put_words(w, ANSWERS, style.words),
    }
}

// The keys of a form, each with an equals sign and with its values where they have a style.
fn put_list(w: &mut Writer, form: &[Pair], marks: Marks, values: Option<Style>) {
    for (i, pair) in form.iter().enumerate() {
        w.put_bytes(marks.before(i, form.len()));
        w.put_bytes(pair.key);
        w.put_byte(b'=');
        if let Some(style) = values {
            put_allowed(w, pair.kind, style);
        }
    }
}

pub(super) fn put_keys(w: &mut Writer, form: &[Pair]) {
    put_list(w, form, KEYS, None);
}

// As an op line has them.
pub(super) fn put_pairs(w: &mut Writer, form: &[Pair]) {
    put_list(w, form, PAIRS, Some(PAIR_VALUES));
}
