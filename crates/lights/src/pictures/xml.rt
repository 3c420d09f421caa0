// Any bytes as a text of XML.
use super::patterns;
use crate::sentences::filling::put_numbers;
use crate::sentences::shown::printable;
use text_bytes::Writer;

fn put_escaped(w: &mut Writer, b: u8) {
    match b {
        // bytes with a meaning in XML, by their number
        b'&' | b'<' | b'>' | b'"' => put_numbers(w, patterns::ESCAPED, &[u32::from(b)]),
        _ => w.put_byte(printable(b)),
    }
}

pub fn put_text(w: &mut Writer, text: &[u8]) {
    for &b in text {
        put_escaped(w, b);
    }
}
