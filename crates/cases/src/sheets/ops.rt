// Single op lines: read as a code, and written from one.
use super::lent::{FILL_BYTE, compared, kept};
use op_lines::WriteError;
use std::io;
use text_bytes::{from, until};

// A script may ask for more than is there.
fn word_written(code: u16, out: &mut [u8], room: usize) -> Result<usize, WriteError> {
    let lent = out.get_mut(..room).ok_or(WriteError::TooShort)?;
    op_codec::disassemble_word(code, lent)
}

// Whether a code is written as the line that it was read from.
fn print_again(rt: &impl Print, code: u16, line: &[u8]) -> io::Result<()> {
    let mut out = [FILL_BYTE; 100];
    let end = word_written(code, &mut out, 100).unwrap_or(0);
    print!(rt; " written={}", compared(until(&out, end), line))
}

pub fn read(rt: &impl Print, line: &[u8]) -> io::Result<()> {
    let read = op_codec::assemble_line(line);
    print!(rt; ": number={}", refusals::op_line_number_of(read))?;
    let Ok(code) = read else {
        return Ok(());
    };
    print!(rt; " code={code:04X}")?;
    print_again(rt, code, line)
}

pub fn write(rt: &impl Print, code: u16, room: usize) -> io::Result<()> {
    let mut out = [FILL_BYTE; 8192];
    let written = word_written(code, &mut out, room);
    let end = written.unwrap_or(0);
    let number = refusals::written_line_number_of(written);
    print!(rt; ": number={number} code={code:04X}")?;
    print!(rt; " rest={} ", kept(from(&out, end), &FILL_BYTE))?;
    rt.write_all(until(&out, end))
}
