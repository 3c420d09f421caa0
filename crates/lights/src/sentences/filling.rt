// Templates, filled in.
use super::say::Part;
use super::shown::{printable, put_changed};
use super::values::{VALUES, put_allowed, put_keys, put_pairs};
use text_bytes::Writer;

fn put_part(w: &mut Writer, part: Part) {
    match part {
        Part::Number(n) => w.put_decimal(n),
        Part::Name(name) => w.put_bytes(name),
        Part::Keys(form) => put_keys(w, form),
        Part::Pairs(form) => put_pairs(w, form),
        Part::Allowed(kind) => put_allowed(w, kind, VALUES),
    }
}

// A template, its signs replaced: `%` by the next part, `!` by the quote, and `^` by the name of a file
// or a command. No Display: names and quotes are bytes, which need not be text.
pub fn fill<T: Copy + Into<Part>>(
    w: &mut Writer,
    template: &[u8],
    parts: &[T],
    quote: &[u8],
    name: &[u8],
) {
    let mut parts = parts.iter();
    for &b in template {
        match b {
            b'%' => {
                if let Some(&part) = parts.next() {
                    put_part(w, part.into());
                }
            }
            b'!' => w.put_bytes(quote),
            b'^' => put_changed(w, name, printable),
            _ => w.put_byte(b),
        }
    }
}

// A template that has numbers only.
pub fn put_numbers(w: &mut Writer, template: &[u8], numbers: &[u32]) {
    fill(w, template, numbers, b"", b"");
}
