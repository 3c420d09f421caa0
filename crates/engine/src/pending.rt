// Triggers: those that a word waits for, and those that it sends.
ghost use Rattle.std.specs.Prelude.{◌≡◌, ℕ, ◌<◌, ◌==◌, bit_and, List, length};
ghost use Rattle.machine.specs.Parts.{each};
ghost use Rattle.machine.specs.Triggers.{receives, to_pin};
ghost use Rattle.engine.specs.Parts.{engines_from};

use engine_core::{EngineCore, PIN, has_bit};

pub(super) fn all_pending(pending: u16, wait: u16) -> bool
    ensures { result ≡ (bit_and pending wait == wait) }
{
    pending & wait == wait
}

// The trigger bit of engine i becomes pending in those that `send` names. Most words send nothing.
pub(super) fn receive(cores: &mut [EngineCore; 3], i: usize, send: u16)
    requires { i < 3 }
    ensures { (counts : List (List ℕ)) → length counts ≡ 3 → engines_from cores.new counts ≡ each (receives i send) 0 (engines_from cores.old counts) }
{
    if send == 0 {
        return;
    }
    let bit: u16 = 1 << i;
    for (k, core) in cores.iter_mut().enumerate() {
        *core = core.with_bit(bit, has_bit(send, k));
    }
}

pub(super) fn to_pin(send: u16) -> bool
    ensures { result ≡ to_pin send }
{
    has_bit(send, PIN)
}
