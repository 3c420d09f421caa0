// What is to be repaired in a line that is refused with 20, 21 or 22. In a line the lowest number is
// given, so the first fault in the order below is the one that the line is refused for.
use super::faults::{Fault, fault_of};
use super::judging::Rank;
use crate::sentences::say::{Part, Say, say_only, say_with};
use crate::sentences::shown::{MOST_QUOTED, put_changed};
use crate::sentences::templates;
use crate::texts::pieces::value_of;
use grammar::{Kind, LineKind, OpLine, PLAN, op_lines};
use text::{EQUALS_SIGN, SPACE, ValueError};
use text_bytes::{Writer, part_at, read_decimal};

const TAB: u8 = b'\t';

const CARRIAGE_RETURN: u8 = b'\r';

// The greatest number of 16 bits.
const MOST: u32 = u16::MAX as u32;

fn has_two_spaces(line: &[u8]) -> bool {
    line.iter()
        .zip(line.iter().skip(1))
        .any(|(a, b)| *a == SPACE && *b == SPACE)
}

// The greatest number that a kind allows in its first range; 0 for words.
fn most_of(kind: Kind) -> u16 {
    match kind {
        Kind::Number([first, ..]) => first.most,
        _ => 0,
    }
}

// A line of a known op. If each value is allowed, the line is a ramp up by 0: its last pair is named.
fn of_known(line: &[u8], op: OpLine) -> Say {
    let name = Part::Name(op.name);
    let Some(last) = op.form.last() else {
        return say_with(templates::NO_KEY, &[name]);
    };
    let template = if op.form.len() == 1 {
        templates::ONE_KEY
    } else {
        templates::KEYS
    };
    let keys = say_with(template, &[name, Part::Keys(op.form)]);
    let most = Part::Number(u32::from(most_of(last.kind)));
    let none = Fault {
        rank: Rank::Allowed,
        say: say_with(templates::UP_BY_ZERO, &[name, Part::Name(last.key), most]),
    };
    fault_of(line, op.form, keys, none)
}

fn op_named(name: &[u8]) -> Option<OpLine> {
    op_lines().iter().find(|op| op.name == name).copied()
}

// A letter as a small one, and `_` as `-`.
fn plain(b: u8) -> u8 {
    if b == b'_' {
        b'-'
    } else {
        b.to_ascii_lowercase()
    }
}

// An op that isn't known: perhaps it is one but for the case of letters, or `_` in place of `-`. A text
// that is longer than the bytes is no op, being longer than any.
fn of_unknown(v: &[u8]) -> Say {
    let mut bytes = [0u8; MOST_QUOTED];
    let mut w = Writer::new(&mut bytes);
    put_changed(&mut w, v, plain);
    match w.written().and_then(op_named) {
        Some(op) => say_with(templates::NEAR_OP, &[Part::Name(op.name)]),
        None => say_only(templates::UNKNOWN_OP),
    }
}

fn of_op(line: &[u8]) -> Say {
    if !line.starts_with(b"op=") {
        return say_only(templates::NO_OP_KEY);
    }
    let v = value_of(part_at(line, 0, SPACE));
    if v.is_empty() {
        return say_only(templates::NO_OP_VALUE);
    }
    if v.contains(&EQUALS_SIGN) {
        return say_only(templates::TWO_SIGNS);
    }
    match op_named(v) {
        Some(op) => of_known(line, op),
        None => of_unknown(v),
    }
}

// What is wrong with the engine's number in its plan line.
fn of_engine(v: &[u8], engine: u32) -> Fault {
    let other = say_with(templates::ENGINE, &[engine]);
    let (rank, say) = match read_decimal(v, MOST) {
        Err(ValueError::Malformed) if v.is_empty() => (
            Rank::Malformed,
            say_only(templates::NO_ENGINE),
        ),
        Err(ValueError::Malformed) => (Rank::Malformed, say_only(templates::ENGINE_SHAPE)),
        Ok(n) if n == engine => (Rank::Allowed, other),
        Ok(_) | Err(ValueError::Outside) => (Rank::NotAllowed, other),
    };
    Fault { rank, say }
}

fn of_plan(line: &[u8], engine: u32) -> Say {
    let plan = say_with(templates::PLAN, &[engine, engine]);
    let first = part_at(line, 0, SPACE);
    if part_at(first, 0, EQUALS_SIGN) != b"engine".as_slice() {
        return plan;
    }
    let fault = of_engine(value_of(first), engine);
    fault_of(line, PLAN, plan, fault)
}

// A line of one pair, whose value is a number of 16 bits: the sentence about its range, or its shape.
fn of_single(line: &[u8], key: &[u8], range: &'static [u8], shape: &'static [u8]) -> Say {
    match read_decimal(text_bytes::value_of(line, key), MOST) {
        Err(ValueError::Outside) => say_with(range, &[MOST]),
        _ => say_only(shape),
    }
}

// What is wrong with the line whatever its form, where it is not to be judged by that.
fn shape_of(line: &[u8]) -> Option<&'static [u8]> {
    match line {
        [] => Some(templates::EMPTY_LINE),
        [.., CARRIAGE_RETURN] => Some(templates::CARRIAGE_RETURN),
        [0xEF, 0xBB, 0xBF, ..] => Some(templates::BYTE_ORDER_MARK),
        _ if line.contains(&TAB) => Some(templates::TAB),
        _ if has_two_spaces(line) => Some(templates::TWO_SPACES),
        [SPACE, ..] => Some(templates::SPACE_AT_START),
        [.., SPACE] => Some(templates::SPACE_AT_END),
        _ => None,
    }
}

pub fn of_line(line: &[u8], kind: LineKind) -> Say {
    if let Some(shape) = shape_of(line) {
        return say_only(shape);
    }
    match kind {
        LineKind::Op => of_op(line),
        LineKind::Plan(engine) => of_plan(line, u32::from(engine)),
        LineKind::Row => of_single(line, b"row", templates::ROW_RANGE, templates::ROW_SHAPE),
        LineKind::Spare => of_single(
            line,
            b"spare",
            templates::SPARE_RANGE,
            templates::SPARE_SHAPE,
        ),
    }
}
