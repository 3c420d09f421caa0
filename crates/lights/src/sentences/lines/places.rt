// Lines that belong elsewhere: the plan decides which kind a line is of.
use crate::sentences::say::{Say, say_with};
use crate::sentences::templates;
use grammar::LineKind;
use plan::Plan;
use text::EQUALS_SIGN;
use text_bytes::part_at;

// Whether a line begins as the line of a word, but not as one of this kind.
pub fn is_elsewhere(line: &[u8], kind: LineKind) -> bool {
    let key = part_at(line, 0, EQUALS_SIGN);
    if key.len() == line.len() {
        return false;
    }
    // the plan lines have none of these keys
    match key {
        b"op" => !matches!(kind, LineKind::Op),
        b"row" => !matches!(kind, LineKind::Row),
        b"spare" => !matches!(kind, LineKind::Spare),
        _ => false,
    }
}

// What belongs where line n stands, counted from 0: by the plan, a word of an engine or of none; or the
// plan line of an engine.
pub fn of_place(kind: LineKind, plan: Plan, n: u16) -> Say {
    if n < 3 {
        let engine = u32::from(n) + 1;
        return say_with(templates::PLAN, &[engine, engine]);
    }
    let address = n - 3;
    let engine = u32::from(sheet_places::owner_at(plan, address));
    let template = match kind {
        LineKind::Row => templates::ROW_PLACE,
        LineKind::Spare => templates::SPARE_PLACE,
        LineKind::Op | LineKind::Plan(_) => templates::CODE_PLACE,
    };
    say_with(template, &[u32::from(address), engine])
}
