// The host's side of the chip: a new chip, bursts to the registers, the interrupt read. The rules are
// document 01's, section "Host registers" and its numbers 1 to 7; the definitions are crate machine's.
#![tactic(auto)]

mod bursts;
mod interrupts;
mod listed;
mod new;
mod write;

pub use bursts::burst;
pub use interrupts::read_interrupts;
pub use new::new_chip;
