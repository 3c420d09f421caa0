// The disassembler.
ghost use Rattle.std.specs.Prelude.{◌≡◌, length};
ghost use Rattle.text_bytes.specs.Writer.{Writes};
ghost use Rattle.word.specs.Profile.{LP5523};
ghost use Rattle.asm.specs.Answers.{written_of};
ghost use Rattle.asm.specs.Writing.{sheet_of, writable_of, disassemble_of, bytes_after};

use super::plans::put_plan;
use super::undefined::check_defined;
use super::words::put_words;
use asm::DisassembleError;
use plan::{CheckError, Plan};
use text_bytes::Writer;
use word::WORDS;

// The first of 11, 12 and 13 that a plan and its image fail is an Err. `plan` and `image` stand here
// and below as in the public form; a struct of both would be taken apart again in each function.
fn check_writable(plan: Plan, image: &[u16; WORDS]) -> Result<(), CheckError>
    ensures { result ≡ writable_of LP5523 plan image.now }
{
    checker::check_ranges(plan)?;
    check_defined(plan, image)
}

fn put_sheet(w: &mut Writer<'_>, plan: Plan, image: &[u16; WORDS])
    ensures { Writes w.old w.new (sheet_of LP5523 plan image.now) }
{
    // a loop over plan.engines() is no shorter, and asks for an invariant
    put_plan(w, 1, plan.engine1);
    put_plan(w, 2, plan.engine2);
    put_plan(w, 3, plan.engine3);
    put_words(w, plan, image);
}

// Writes the sheet of a plan and its image. A refusal leaves the lent bytes as they were. The text is
// measured on no bytes first.
pub fn disassemble(plan: Plan, image: &[u16], out: &mut [u8]) -> Result<usize, DisassembleError>
    ensures result_value { written_of result ≡ disassemble_of LP5523 plan image.now (length out.old) }
    ensures out_after { out.new ≡ bytes_after LP5523 plan image.now out.old }
{
    let Ok(image) = <&[u16; WORDS]>::try_from(image) else {
        return Err(DisassembleError::Refused(CheckError::WrongLength));
    };
    check_writable(plan, image)?;
    // one function for both writers would take the writing as a closure, and say in `requires` what it
    // writes
    let mut measured = Writer::new(&mut []);
    put_sheet(&mut measured, plan, image);
    let n = measured.at();
    if n > out.len() {
        return Err(DisassembleError::TooShort);
    }
    put_sheet(&mut Writer::new(out), plan, image);
    Ok(n)
}
