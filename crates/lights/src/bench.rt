// The bench: a chip that answers commands from standard input.
pub mod answers;
pub mod bursts;
pub mod state;
