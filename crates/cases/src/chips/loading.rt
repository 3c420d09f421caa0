// Bursts made of a script's numbers, and words loaded by bursts.
ghost use Rattle.std.specs.Prelude.{◌<◌};

use super::Chips;
use crate::numbers;
use crate::numbers::{MOST, Numbers};
use machine::{CallError, Chip};
use std::io;
use text_bytes::until;
use word::WORDS;

// A call that is meant to succeed: a refusal is said, and leaves the chip as it was. The chip goes in and
// out, since a refusal is said before it is stored.
pub fn expected(rt: &impl Print, m: Chip, call: Result<Chip, CallError>) -> io::Result<Chip> {
    if let Err(error) = call {
        print!(rt; " refused={}", refusals::error_number_of(error))?;
    }
    Ok(call.unwrap_or(m))
}

// A burst of these numbers.
pub fn burst_of(
    rt: &impl Print,
    m: Chip,
    address: u16,
    given: &[u32],
) -> io::Result<Result<Chip, CallError>> {
    let mut bytes = [0u8; MOST];
    for (byte, &n) in bytes.iter_mut().zip(given) {
        *byte = numbers::byte(rt, n)?;
    }
    Ok(chip::burst(m, address, until(&bytes, given.len())))
}

// A burst to the address that the first number gives, of the numbers behind it.
pub fn addressed(rt: &impl Print, m: Chip, n: &Numbers) -> io::Result<Result<Chip, CallError>> {
    burst_of(rt, m, n.wide(rt, 0)?, n.after_first())
}

// A new chip, enabled, its engines held and in load mode.
pub fn loading(rt: &impl Print) -> io::Result<Chip> {
    let m = chip::new_chip();
    expected(rt, m, chip::burst(m, 0x00, &[0x40, 0x15]))
}

// The word at an address: its page, then its two bytes, the high one first.
fn put_word(rt: &impl Print, m: Chip, at: usize, code: u16) -> io::Result<Chip>
    requires { at < 96 }
{
    let paged = expected(rt, m, chip::burst(m, 0x4F, &[(at / 16) as u8]))?;
    let address = (0x50 + at % 16 * 2) as u16;
    expected(rt, paged, chip::burst(paged, address, &code.to_be_bytes()))
}

impl Chips {
    // Words one after the other, while an engine is in load mode.
    pub(super) fn words(&mut self, rt: &impl Print, n: &Numbers) -> io::Result<()> {
        for &code in n.all() {
            if self.at >= WORDS {
                return print!(rt; " no such word");
            }
            self.chip = put_word(rt, self.chip, self.at, numbers::wide(rt, code)?)?;
            self.at += 1;
        }
        Ok(())
    }
}
