// Words of memory in hexadecimal digits.
ghost use Rattle.std.specs.Prelude.{◌<◌};

use text_bytes::Writer;

const GLYPHS: [u8; 16] = *b"0123456789ABCDEF";

fn glyph(n: u16) -> u8 {
    GLYPHS[usize::from(n % 16)]
}

// Four hexadecimal digits. By hand: a Writer takes bytes and is no fmt::Write.
pub fn put_hex(w: &mut Writer, n: u16) {
    w.put_bytes(&[glyph(n / 4096), glyph(n / 256), glyph(n / 16), glyph(n)]);
}

// Sixteen words a line.
pub fn put_words(w: &mut Writer, words: &[u16]) {
    for (i, &word) in words.iter().enumerate() {
        put_hex(w, word);
        w.put_byte(separator(i, words.len()));
    }
}

// The byte after word i of so many.
pub(crate) fn separator(i: usize, count: usize) -> u8
    requires { i < count }
{
    if i % 16 == 15 || i + 1 == count {
        b'\n'
    } else {
        b' '
    }
}
