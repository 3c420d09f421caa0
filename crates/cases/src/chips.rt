// Chips, made and changed by the calls of crate chip alone, as a host would. A line has commands: a
// name, and the numbers after it.
ghost use Rattle.std.specs.Prelude.{◌<◌, ◌≤◌, length};

mod calls;
mod loading;
mod names;
mod views;

use crate::numbers;
use crate::pieces::{first, rest};
use machine::Chip;
use names::Call;
use std::io;

// The chip, and the address where the next words go.
#[derive(Clone, Copy)]
pub struct Chips {
    chip: Chip,
    at: usize,
}

impl Chips {
    pub fn new(chip: Chip) -> Chips {
        Chips { chip, at: 0 }
    }

    // A loop over what is left: only after a command's numbers is it known where the next command begins.
    pub fn commands(&mut self, rt: &impl Print, line: &[u8]) -> io::Result<()> {
        print!(rt; ":")?;
        let mut parts = line;
        while !parts.is_empty() {
            let name = first(parts);
            let call = Call::named(name);
            let (numbers, after) = numbers::read(rt, rest(parts), Call::base(call))?;
            match call {
                Some(call) => self.call(rt, call, &numbers)?,
                None => views::show(rt, &self.chip, name, &numbers)?,
            }
            parts = after;
        }
        Ok(())
    }
}
