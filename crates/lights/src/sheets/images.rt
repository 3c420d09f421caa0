// sheet: an image from a file, with a plan from arguments, written as a sheet.
use super::plans;
use crate::cli::arguments::Arguments;
use crate::cli::files;
use crate::cli::files::LARGE;
use crate::cli::names::Name;
use crate::cli::numbers::read_hex;
use crate::cli::output::{Stream, misread, write_bytes};
use crate::cli::status::Status;
use crate::cli::system::Host;
use crate::sentences::say::{Message, line_of, refused, say_only, say_with};
use crate::sentences::templates;
use crate::sentences::verdicts::{Origin, of_error};
use crate::texts::words::separator;
use asm::DisassembleError;
use plan::{EnginePlan, Plan};
use std::env::Env;
use text_bytes::until;

// No sheet is longer.
const LONGEST_SHEET: usize = 16_384;

// More words than the chip has, so that the disassembler refuses an image that is too long.
const MOST_WORDS: usize = 128;

// The words of an image, in lent memory, if none is malformed.
fn read_words<'a>(bytes: &[u8], image: &'a mut [u16]) -> Option<&'a [u16]> {
    if bytes.len() % 5 != 0 {
        return None;
    }
    let count = bytes.len() / 5;
    let words = image.get_mut(..count)?;
    for (k, (word, part)) in words.iter_mut().zip(bytes.chunks_exact(5)).enumerate() {
        let (digits, end) = part.split_at(4);
        *word = read_hex(digits)?;
        if end != [separator(k, count)].as_slice() {
            return None;
        }
    }
    Some(words)
}

// Why no sheet is written: the plan or the image is refused, or the sheet is too long. Plan and image go side
// by side, as the checker and the disassembler take them.
fn why_not(plan: Plan, image: &[u16], why: DisassembleError) -> Message {
    match why {
        DisassembleError::Refused(error) => of_error(Origin::Image, plan, image, error),
        DisassembleError::TooShort => {
            let number = u32::from(refusals::written_report_of(Err(why)).number);
            refused(
                say_with(templates::REFUSED_FILE, &[number]),
                say_only(templates::LONG_SHEET),
            )
        }
    }
}

// The sheet of an image's file.
fn of_file(rt: &impl Host, name: Name, plan: Plan) -> Result<Status, Message> {
    let mut buf = [0u8; LARGE];
    let mut memory = [0u16; MOST_WORDS];
    let mut sheet = [0u8; LONGEST_SHEET];
    let bytes = files::read(rt, name, &mut buf)?;
    let image = read_words(bytes, &mut memory).ok_or(line_of(
        Status::Failed,
        templates::NAMED,
        templates::NO_IMAGE,
    ))?;
    let n = disassembler::disassemble(plan, image, &mut sheet).map_err(|why| why_not(
        plan, image, why,
    ))?;
    Ok(write_bytes(rt, Stream::Output, until(&sheet, n), Status::Done))
}

// Argument k as an engine's plan.
fn take_plan(rt: &impl Env, arguments: Arguments, k: usize) -> Option<EnginePlan> {
    let mut bytes = [0u8; 64];
    let n = arguments.take(rt, k, &mut bytes).ok()?;
    plans::read(until(&bytes, n))
}

fn take_plans(rt: &impl Env, arguments: Arguments) -> Option<Plan> {
    Some(Plan {
        engine1: take_plan(rt, arguments, 3)?,
        engine2: take_plan(rt, arguments, 4)?,
        engine3: take_plan(rt, arguments, 5)?,
    })
}

// sheet IMAGE E1 E2 E3
pub fn sheet(rt: &impl Host, arguments: Arguments, name: Name) -> Result<Status, Message> {
    match take_plans(rt, arguments) {
        Some(plan) => of_file(rt, name, plan),
        None => Ok(misread(rt, arguments, templates::NO_PLAN)),
    }
}
