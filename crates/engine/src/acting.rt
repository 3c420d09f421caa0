// An engine in its turn.
use engine_core::EngineCore;

// The engine's core, and the variables C and D, which all engines share.
#[derive(Clone, Copy)]
pub(super) struct Acting {
    pub own: EngineCore,
    pub c: u8,
    pub d: u8,
}
