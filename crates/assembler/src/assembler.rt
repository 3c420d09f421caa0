// The assembler.
ghost use Rattle.std.specs.Prelude.{List, [], ◌≡◌, ℕ, length};
ghost use Rattle.text.specs.Bytes.{line_feed, split};
ghost use Rattle.word.specs.Profile.{LP5523};
ghost use Rattle.plan.specs.Check.{check_ranges_of};
ghost use Rattle.plan.specs.Verdict.{report_of};
ghost use Rattle.asm.specs.Answers.{reading_of};
ghost use Rattle.asm.specs.Reading.{ranged, read_words, read_sheet, assemble_of, image_after};

use super::lines::first_line;
use super::plans::read_plan;
use super::words::read_word;
use asm::AssembleError;
use plan::{CheckError, Plan};
use sheet_places::{line_kind_at, line_of};
use word::WORDS;

// The plan, if it passes 11 and 12.
fn with_valid_ranges(plan: Plan) -> Result<Plan, AssembleError>
    ensures { (ws : List ℕ) → reading_of result ws ≡ ranged (report_of (check_ranges_of LP5523 plan)).number plan ws }
{
    let Err(error) = checker::check_ranges(plan) else {
        return Ok(plan);
    };
    // `check_ranges` gives no other error
    Err(match error {
        CheckError::InvalidRange { .. } => AssembleError::InvalidRange,
        _ => AssembleError::CodeOverlapsTable,
    })
}

// Reads the word lines, with which a text begins, into the lent words.
fn read_words(text: &[u8], plan: Plan, words: &mut [u16; WORDS]) -> Result<Plan, AssembleError>
    ensures { reading_of result words.new ≡ read_words LP5523 plan 96 0 4 [] (split line_feed text.now) }
{
    let mut rest = text;
    for (k, word) in words.iter_mut().enumerate() {
        let line = line_of(k as u16) as u16;
        let (part, after) = first_line(rest, line)?;
        let code = read_word(part, line_kind_at(plan, k as u16));
        *word = code.map_err(|error| AssembleError::Line { line, error })?;
        rest = after;
    }
    if !rest.is_empty() {
        return Err(AssembleError::WrongLineCount);
    }
    with_valid_ranges(plan)
}

fn read_sheet(text: &[u8], words: &mut [u16; WORDS]) -> Result<Plan, AssembleError>
    ensures { reading_of result words.new ≡ read_sheet LP5523 text.now }
{
    let (engine1, rest) = read_plan(text, 1)?;
    let (engine2, rest) = read_plan(rest, 2)?;
    let (engine3, rest) = read_plan(rest, 3)?;
    let plan = Plan {
        engine1,
        engine2,
        engine3,
    };
    read_words(rest, plan, words)
}

// Reads a sheet into the lent image. A refusal leaves the image as it was. The image stays a slice: once
// `try_from` has made it an array, no fact says by name what the slice holds afterwards.
pub fn assemble(text: &[u8], image: &mut [u16]) -> Result<Plan, AssembleError>
    ensures result_value { reading_of result image.new ≡ assemble_of LP5523 (length image.old) text.now }
    ensures image_after { image.new ≡ image_after (assemble_of LP5523 (length image.old) text.now) image.old }
{
    if image.len() != WORDS {
        return Err(AssembleError::WrongLength);
    }
    let mut words = [0u16; WORDS];
    let plan = read_sheet(text, &mut words)?;
    image.copy_from_slice(&words);
    Ok(plan)
}
