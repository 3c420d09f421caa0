// The engines' beats, one after another: each engine's turn, triggers, and the outputs' levels. The rules
// are document 01's, section "A beat"; the definitions are crate machine's. The crate `beats` makes the
// beats of a whole chip of them.
#![tactic(auto)]

mod acting;
mod branches;
mod durations;
mod fetches;
mod idle;
mod lasting;
mod levels;
mod outputs;
mod pending;
mod spans;
mod stops;
mod table;
mod triggers;
mod turns;
mod variables;
mod word_end;
mod words;

use engine_core::EngineCore;
use machine::Effect;
pub use spans::take_beats;

// What a beat of a word gives, but for the branch counts. The order is for speed: the small fields lie
// side by side.
#[derive(Clone, Copy)]
pub struct CoreResult {
    pub own: EngineCore,
    pub send: u16,
    pub effect: Effect,
    pub c: u8,
    pub ended: bool,
}

// Variable C and the three engines, without their branch counts.
#[derive(Clone, Copy)]
pub struct Cores {
    pub c: u8,
    pub engines: [EngineCore; 3],
}

// What beats one after another give: what they worked on after them, which is cores or a whole chip,
// whether the last sent to the pin, how many there were, and the words that each engine finished.
#[derive(Clone, Copy)]
pub struct Span<T> {
    pub after: T,
    pub pin: bool,
    pub beats: u32,
    pub words: [u32; 3],
}
