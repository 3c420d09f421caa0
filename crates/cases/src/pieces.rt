// The parts of a text between separators.
ghost use Rattle.std.specs.Prelude.{◌<◌, length};

use text::SPACE;
use text_bytes::{after_part, from, part_at};

// The part with this number, from 0 on; no byte where there is none. Each program has its own: it is one
// line.
pub fn nth(s: &[u8], n: usize, d: u8) -> &[u8] {
    s.split(|b| *b == d).nth(n).unwrap_or(&[])
}

// What stands before the first space.
pub fn first(parts: &[u8]) -> &[u8] {
    part_at(parts, 0, SPACE)
}

// What stands after it. By places, since what is left is given back.
pub fn rest(parts: &[u8]) -> &[u8]
    ensures { 0 < length parts.now → length result.now < length parts.now }
{
    from(parts, after_part(parts, 0, SPACE))
}
