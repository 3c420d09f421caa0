// The line of a code, written whole or not at all.
ghost use Rattle.std.specs.Prelude.{◌≡◌, length};
ghost use Rattle.word.specs.Profile.{LP5523};
ghost use Rattle.op_lines.specs.Lines.{written_of, disassemble_word_of, bytes_after};

use crate::op_line::put_op_line;
use decoder::{decode, is_undefined};
use op_lines::WriteError;
use text_bytes::Writer;

// Writes the line of a code without its LF. A refusal leaves the lent bytes as they were. The line is
// measured on no bytes first.
pub fn disassemble_word(code: u16, out: &mut [u8]) -> Result<usize, WriteError>
    ensures result_value { written_of result ≡ disassemble_word_of LP5523 code (length out.old) }
    ensures out_after { out.new ≡ bytes_after LP5523 code out.old }
{
    if is_undefined(decode(code)) {
        return Err(WriteError::UndefinedWord);
    }
    // one function for both writers would take the writing as a closure, and say in `requires` what it
    // writes
    let mut measured = Writer::new(&mut []);
    put_op_line(&mut measured, code);
    let n = measured.at();
    if n > out.len() {
        return Err(WriteError::TooShort);
    }
    put_op_line(&mut Writer::new(out), code);
    Ok(n)
}
