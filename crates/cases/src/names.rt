// Names: a script's own, and those of the grammar's ops.
use grammar::op_lines;

// Whether a part of a line is a name; numbers begin with a digit or a capital.
pub fn is_name(part: &[u8]) -> bool {
    matches!(part, [b'a'..=b'z', ..])
}

// The place of an op among the grammar's.
pub fn op_named(name: &[u8]) -> Option<u16> {
    let place = op_lines().iter().position(|op| op.name == name)?;
    Some(place as u16)
}
