// The reader's answer: document 01's number and line, and whether the lent image was kept.
use super::Sheets;
use super::lent::{FILL_WORD, kept};
use asm::AssembleError;
use plan::Plan;
use std::io;

// A script may ask for more than is there.
fn assembled(text: &[u8], lent: &mut [u16], words: usize) -> Result<Plan, AssembleError> {
    let image = lent.get_mut(..words).ok_or(AssembleError::WrongLength)?;
    assembler::assemble(text, image)
}

impl Sheets<'_> {
    // Reads the sheet; the program changes only where it was read.
    pub(super) fn read(&mut self, rt: &impl Print) -> io::Result<()> {
        let mut lent = [FILL_WORD; 100];
        let words = self.words;
        let read = assembled(self.text(), &mut lent, words);
        let a = refusals::line_report_of(read);
        let image = kept(&lent, &FILL_WORD);
        print!(rt; ": number={} line={} image={image}", a.number, a.line)?;
        if let Ok(plan) = read {
            self.plan = plan;
            self.image = lent;
        }
        Ok(())
    }
}
