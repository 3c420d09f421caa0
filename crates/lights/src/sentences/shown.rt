// Bytes of others, shown or compared.
use crate::texts::pieces::value_of;
use text::SPACE;
use text_bytes::{Writer, part_at, until};

// How many bytes of a text of a sheet are quoted.
pub const MOST_QUOTED: usize = 40;

// What is shown of a text of a sheet: so many bytes, with `..` behind them where it is only a beginning.
// The bytes are its own, since they are not those of the sheet, and nothing is allocated.
#[derive(Clone, Copy)]
pub struct Quote {
    bytes: [u8; 42],
    length: usize,
}

impl Quote {
    pub fn text(&self) -> &[u8] {
        until(&self.bytes, self.length)
    }
}

// A control byte as `?`.
pub fn printable(b: u8) -> u8 {
    if b.is_ascii_control() { b'?' } else { b }
}

// A byte that is no printed ASCII character as `?`.
fn ascii(b: u8) -> u8 {
    if b == SPACE || b.is_ascii_graphic() {
        b
    } else {
        b'?'
    }
}

// A text, each byte as it is to be shown.
pub fn put_changed<F: Fn(u8) -> u8>(w: &mut Writer, v: &[u8], shown: F)
    requires { F.IsAlwaysCallable shown }
{
    for &b in v {
        w.put_byte(shown(b));
    }
}

// The op of a line: what stands after the equals sign of its first part.
pub fn quoted(line: &[u8]) -> Quote {
    let mut bytes = [0u8; 42];
    let mut w = Writer::new(&mut bytes);
    let op = value_of(part_at(line, 0, SPACE));
    put_changed(&mut w, until(op, MOST_QUOTED), ascii);
    if op.len() > MOST_QUOTED {
        w.put_bytes(b"..");
    }
    let length = w.at();
    Quote { bytes, length }
}
