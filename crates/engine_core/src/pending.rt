// Triggers that become pending.
ghost use Rattle.std.specs.Prelude.{cond, List, ◌≡◌, ℕ};
ghost use Rattle.std.specs.Int.Bits.{bit_or};
ghost use Rattle.machine.specs.Parts.{with_pending};
ghost use Rattle.engine_core.specs.Core.{engine_of};

use crate::EngineCore;

impl EngineCore {
    // The core with a bit pending, if it is named.
    pub fn with_bit(mut self, bit: u16, named: bool) -> EngineCore
        ensures { (counts : List ℕ) → engine_of result counts ≡ cond named (with_pending (bit_or self.pending bit) (engine_of self counts)) (engine_of self counts) }
    {
        if named {
            self.pending |= bit;
        }
        self
    }
}
