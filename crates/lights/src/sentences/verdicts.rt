// Refusals of the checker.
use super::say::{Message, Say, refused, say_only, say_with};
use super::templates;
use plan::{CheckError, EnginePlan, Plan};
use word::{Address, MuxAtOp, WORDS, Word};

// The address of the last word.
pub const LAST_ADDRESS: u16 = (WORDS - 1) as u16;

// What the program was made from: a sheet has a line for each word, an image none.
#[derive(Clone, Copy)]
pub enum Origin {
    Sheet,
    Image,
}

// The plan of an engine; engines are counted from 1.
fn plan_of(plan: Plan, engine: u16) -> EnginePlan {
    let place = usize::from(engine).saturating_sub(1);
    plan.engines()
        .get(place)
        .copied()
        .unwrap_or(EnginePlan::Unused)
}

// The word at an address; past the end there is none.
fn word_at(image: &[u16], address: Address) -> Word {
    image
        .get(usize::from(address.0))
        .map_or(Word::Undefined, |code| decoder::decode(*code))
}

fn word_head(origin: Origin, number: u32, engine: u32, address: u16) -> Say {
    let at = u32::from(address);
    match origin {
        Origin::Sheet => {
            let line = sheet_places::line_of(address);
            say_with(templates::REFUSED_WORD_LINE, &[line, number, engine, at])
        }
        Origin::Image => say_with(templates::REFUSED_WORD, &[number, engine, at]),
    }
}

// What stands before the sentence: the file, an engine of it, or one of its words.
fn head_of(origin: Origin, error: CheckError) -> Say {
    let report = refusals::report_of(Err(error));
    let number = u32::from(report.number);
    let engine = u32::from(report.engine);
    match error {
        CheckError::WrongLength => say_with(templates::REFUSED_FILE, &[number]),
        CheckError::InvalidRange { .. } | CheckError::CodeOverlapsTable { .. } => {
            say_with(templates::REFUSED_ENGINE, &[number, engine])
        }
        CheckError::UndefinedWord { .. }
        | CheckError::SuccessorOutside { .. }
        | CheckError::TableMisused { .. }
        | CheckError::TableNotOpened { .. }
        | CheckError::ReservedRowBit { .. } => word_head(origin, number, engine, report.address),
    }
}

// 14: where the word can step to.
fn of_stray(engine: u32, q: EnginePlan, address: Address, w: Word) -> Say {
    let (first, last) = q.code().map_or((0, 0), |code| {
        (u32::from(code.first.0), u32::from(code.last.0))
    });
    match checker::stray_of(q, address, w) {
        None => say_with(templates::LEAVES, &[engine, first, last]),
        Some(to) => say_with(
            templates::STEP_OUTSIDE,
            &[engine, u32::from(address.0), to, first, last],
        ),
    }
}

// 15: which of the table's numbers the word misses; without a table only mux-clr and mux-sel are left.
fn of_misuse(engine: u32, q: EnginePlan, w: Word) -> Say {
    let EnginePlan::CodeAndTable { top, bottom, .. } = q else {
        return say_with(templates::NO_TABLE, &[engine]);
    };
    let Word::MuxAt { op, address } = w else {
        return say_only(templates::TABLE_MISUSED);
    };
    let has = u32::from(address.0);
    let begin = u32::from(top.0);
    let end = u32::from(bottom.0);
    match op {
        MuxAtOp::MuxMapStart | MuxAtOp::MuxLdStart => {
            say_with(templates::TABLE_BEGIN, &[begin, has])
        }
        MuxAtOp::MuxLdEnd => say_with(templates::TABLE_END, &[end, has]),
        MuxAtOp::MuxLdAddr | MuxAtOp::MuxMapAddr => {
            say_with(templates::TABLE_ROW, &[begin, end, has])
        }
    }
}

// Plan and image go side by side, as the checker and the disassembler take them.
fn sentence(plan: Plan, image: &[u16], error: CheckError) -> Say {
    match error {
        CheckError::WrongLength => say_with(templates::IMAGE_LENGTH, &[WORDS as u32]),
        CheckError::InvalidRange { .. } => say_with(
            templates::OUT_OF_ORDER,
            &[u32::from(LAST_ADDRESS)],
        ),
        CheckError::CodeOverlapsTable { .. } => say_only(templates::CODE_MEETS_TABLE),
        CheckError::UndefinedWord { .. } => say_only(templates::UNDEFINED_WORD),
        CheckError::SuccessorOutside { engine, address } => of_stray(
            u32::from(engine),
            plan_of(plan, engine),
            address,
            word_at(image, address),
        ),
        CheckError::TableMisused { engine, address } => of_misuse(
            u32::from(engine),
            plan_of(plan, engine),
            word_at(image, address),
        ),
        CheckError::TableNotOpened { .. } => say_only(templates::TABLE_NOT_OPENED),
        CheckError::ReservedRowBit { .. } => say_only(templates::ROW_BITS),
    }
}

pub fn of_error(origin: Origin, plan: Plan, image: &[u16], error: CheckError) -> Message {
    refused(head_of(origin, error), sentence(plan, image, error))
}
