// The parts of a text, and their places. Every place has an answer, which slicing has not.
ghost use Rattle.std.specs.Prelude.{◌<◌, ◌≤◌, ◌+◌, ◌≡◌, length};
ghost use Rattle.text.specs.Bytes.{space, split, after_part, place_of};

use crate::pieces::part_at;
use text::SPACE;

// The place after the part at a place and its separator; one past the end where that part is the last.
pub fn after_part(s: &[u8], at: usize, d: u8) -> usize
    ensures value { result ≡ after_part d at s.now }
    ensures lower_bound { (at ≤ length s.now → at < result) × (result ≤ length s.now + 1) }
{
    if at >= s.len() {
        return s.len() + 1;
    }
    at + part_at(s, at, d).len() + 1
}

// The number of the first part that is this one, from 0 on, among parts with spaces between; how many
// there are for another. For a table of names in one text; nothing in this repository calls it.
pub fn place_of(table: &[u8], part: &[u8]) -> usize
    ensures { result ≡ place_of part.now (split space table.now) }
{
    table
        .split(|&b| b == SPACE)
        .take_while(|&other| other != part)
        .count()
}
