// Refusals of the assembler, and of op lines.
ghost use Rattle.std.specs.Prelude.{◌≤◌};

use super::say::{Message, Say, refused, say_only, say_with};
use super::shown::quoted;
use super::verdicts::{LAST_ADDRESS, Origin};
use super::{lines, templates, verdicts};
use crate::texts::pieces::nth;
use asm::AssembleError;
use grammar::{LineError, LineKind};
use plan::{EnginePlan, Plan};
use text::LINE_FEED;
use word::WORDS;

// An engine's plan by its line; unused where the line is refused.
fn engine_plan(text: &[u8], engine: u16) -> EnginePlan
    requires { (1 ≤ engine) × (engine ≤ 3) }
{
    let line = nth(text, usize::from(engine) - 1, LINE_FEED);
    line_reader::read_line(line, LineKind::Plan(engine)).map_or(
        EnginePlan::Unused,
        |v| assembler::engine_plan(v),
    )
}

// The plan by the first three lines.
fn plan_of(text: &[u8]) -> Plan {
    Plan {
        engine1: engine_plan(text, 1),
        engine2: engine_plan(text, 2),
        engine3: engine_plan(text, 3),
    }
}

// What stands in the way of line n, counted from 0.
fn fault(text: &[u8], n: u16) -> Say {
    let at = usize::from(n);
    if text.split(|b| *b == LINE_FEED).nth(at + 1).is_none() {
        return say_only(templates::NO_LINE_FEED);
    }
    let plan = plan_of(text);
    let kind = if n < 3 {
        LineKind::Plan(n + 1)
    } else {
        sheet_places::line_kind_at(plan, n - 3)
    };
    let line = nth(text, at, LINE_FEED);
    if lines::is_elsewhere(line, kind) {
        return lines::of_place(kind, plan, n);
    }
    lines::of_line(line, kind)
}

// At a line, counted from 1.
fn at_line(text: &[u8], line: u16, number: u32) -> Message {
    let n = line.saturating_sub(1);
    let head = say_with(templates::REFUSED_LINE, &[u32::from(line), number]);
    Message {
        quote: Some(quoted(nth(text, usize::from(n), LINE_FEED))),
        ..refused(head, fault(text, n))
    }
}

// How many lines there are; the last may lack its LF.
fn line_count(text: &[u8]) -> u32 {
    let lines = text.split_inclusive(|b| *b == LINE_FEED).count();
    // no text that is read has more
    u32::try_from(lines).unwrap_or(u32::MAX)
}

pub fn of_sheet(text: &[u8], error: AssembleError) -> Message {
    let number = u32::from(refusals::line_report_of(Err(error)).number);
    let head = say_with(templates::REFUSED_FILE, &[number]);
    match error {
        AssembleError::WrongLength => {
            refused(head, say_with(templates::IMAGE_LENGTH, &[WORDS as u32]))
        }
        AssembleError::Line {
            line,
            error: LineError::Malformed | LineError::UnknownOp | LineError::OutsideField,
        } => at_line(text, line, number),
        AssembleError::WrongLineCount => refused(
            head,
            say_with(
                templates::LINE_COUNT,
                &[line_count(text), sheet_places::line_of(LAST_ADDRESS)],
            ),
        ),
        AssembleError::InvalidRange | AssembleError::CodeOverlapsTable => {
            // the checker gives the engine
            let plan = plan_of(text);
            match checker::check_ranges(plan) {
                Ok(()) => refused(say_only(templates::NAMED), say_only(templates::ACCEPTED)),
                Err(error) => verdicts::of_error(Origin::Sheet, plan, &[], error),
            }
        }
    }
}

// A refusal of an op line by itself.
pub fn of_op_line(line: &[u8], error: LineError) -> Message {
    let number = u32::from(refusals::op_line_number_of(Err(error)));
    let head = say_with(templates::REFUSED, &[number]);
    Message {
        quote: Some(quoted(line)),
        ..refused(head, lines::of_line(line, LineKind::Op))
    }
}
