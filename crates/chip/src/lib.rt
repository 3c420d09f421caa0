// The chip's five calls: a new chip, a beat, a run, a burst, an interrupt read. The rules are document
// 01's; each call is proved equal to its definition in crate machine, for every chip value and every
// input.
#![tactic(auto)]

mod runs;
mod ticks;

pub use host::{burst, new_chip, read_interrupts};
pub use runs::{MOST_BEATS, run};
pub use ticks::tick;
