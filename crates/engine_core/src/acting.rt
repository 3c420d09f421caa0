// Whether an engine acts.
ghost use Rattle.std.specs.Prelude.{List, ◌≡◌, ℕ};
ghost use Rattle.machine.specs.Turn.{acts};
ghost use Rattle.engine_core.specs.Core.{engine_of};

use crate::EngineCore;
use machine::{Exec, Mode};

impl EngineCore {
    // It acts in run mode, in the middle of a word or where it is not held.
    pub fn acts(self) -> bool
        ensures { (counts : List ℕ) → result ≡ acts (engine_of self counts) }
    {
        matches!(self.mode, Mode::Run)
            && (self.progress.is_mid_word() || !matches!(self.exec, Exec::Hold))
    }
}
