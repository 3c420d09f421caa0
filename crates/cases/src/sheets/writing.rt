// The writer's answer: document 01's number, engine and address, 0 for what it doesn't give; the
// text's length, and whether the lent bytes behind it were kept.
use super::Sheets;
use super::lent::{FILL_BYTE, compared, kept};
use asm::DisassembleError;
use std::io;
use text_bytes::{from, until};

impl Sheets<'_> {
    // A script may ask for more than is there.
    fn disassembled(&self, out: &mut [u8]) -> Result<usize, DisassembleError> {
        let image = self.image.get(..self.length).unwrap_or(&self.image);
        let lent = out.get_mut(..self.room).ok_or(DisassembleError::TooShort)?;
        disassembler::disassemble(self.plan, image, lent)
    }

    // Writes the program, and compares the text with the sheet.
    pub(super) fn write(&self, rt: &impl Print) -> io::Result<()> {
        let mut out = [FILL_BYTE; 8192];
        let written = self.disassembled(&mut out);
        let end = written.unwrap_or(0);
        let a = refusals::written_report_of(written);
        print!(rt;
            ": number={} engine={} address={} length={end}",
            a.number, a.engine, a.address
        )?;
        print!(rt; " rest={}", kept(from(&out, end), &FILL_BYTE))?;
        if end > 0 {
            print!(rt; " sheet={}", compared(until(&out, end), self.text()))?;
        }
        Ok(())
    }

    // Writes the program again, and prints its text.
    pub(super) fn show(&self, rt: &impl Print) -> io::Result<()> {
        let mut out = [FILL_BYTE; 8192];
        let end = self.disassembled(&mut out).unwrap_or(0);
        println!(rt; ":")?;
        rt.write_all(until(&out, end))
    }
}
