// The calls, and what they answer.
use super::Chips;
use super::loading::{addressed, burst_of, expected, loading};
use super::names::Call;
use crate::numbers::Numbers;
use machine::{CallError, Chip};
use std::io;

// A burst: the number that it answers, 0 for success. The chip goes in and out, since a refusal is said
// before it is stored.
fn answered(rt: &impl Print, m: Chip, call: Result<Chip, CallError>) -> io::Result<Chip> {
    print!(rt; " answer={}", refusals::number_of(&call))?;
    Ok(call.unwrap_or(m))
}

// A run: the beats done, and the words finished by each engine, none where it is refused.
fn ran(rt: &impl Print, m: Chip, beats: u32) -> io::Result<Chip> {
    let call = chip::run(m, beats);
    let chip = expected(rt, m, call.map(|r| r.chip))?;
    let (beats, [one, two, three]) = call.map_or((0, [0; 3]), |r| {
        let words = r.words;
        (r.beats, words)
    });
    print!(rt; " beats={beats} words={one},{two},{three}")?;
    Ok(chip)
}

// Of each engine, 1 for yes.
fn print_flags(rt: &impl Print, name: &str, flags: [bool; 3]) -> io::Result<()> {
    let [one, two, three] = flags.map(u8::from);
    print!(rt; " {name}={one},{two},{three}")
}

// A beat: which engines ended a word, and the pin output event.
fn ticked(rt: &impl Print, m: Chip, pulse: bool) -> io::Result<Chip> {
    let t = chip::tick(m, pulse);
    print_flags(rt, "ended", t.ended)?;
    print!(rt; " pin={}", u8::from(t.pin))?;
    Ok(t.chip)
}

// An interrupt read.
fn interrupts(rt: &impl Print, m: Chip) -> io::Result<Chip> {
    let r = chip::read_interrupts(m);
    print_flags(rt, "interrupts", r.flags)?;
    Ok(r.chip)
}

impl Chips {
    pub(super) fn call(&mut self, rt: &impl Print, call: Call, n: &Numbers) -> io::Result<()> {
        let m = self.chip;
        match call {
            Call::New => *self = Chips::new(chip::new_chip()),
            Call::Load => *self = Chips::new(loading(rt)?),
            Call::Words => self.words(rt, n)?,
            Call::At => self.at = n.value(0) as usize,
            Call::Write => self.chip = expected(rt, m, addressed(rt, m, n)?)?,
            Call::Modes => self.chip = expected(rt, m, burst_of(rt, m, 0x01, n.all())?)?,
            Call::Control => self.chip = expected(rt, m, burst_of(rt, m, 0x00, n.all())?)?,
            Call::Burst => self.chip = answered(rt, m, addressed(rt, m, n)?)?,
            Call::Read => self.chip = interrupts(rt, m)?,
            Call::Beat => self.chip = ticked(rt, m, false)?,
            Call::Pulse => self.chip = ticked(rt, m, true)?,
            Call::Run => self.chip = ran(rt, m, n.value(0))?,
        }
        Ok(())
    }
}
