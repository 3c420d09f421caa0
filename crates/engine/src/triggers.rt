// Trigger words.
ghost use Rattle.std.specs.Prelude.{◌≡◌, ℕ, List};
ghost use Rattle.machine.specs.Triggers.{triggers};
ghost use Rattle.engine_core.specs.Core.{engine_of};
ghost use Rattle.engine.specs.internal.Act.{act_of};

use super::acting::Acting;
use super::pending::all_pending;
use super::word_end::step_pc;
use crate::CoreResult;
use machine::{Effect, Progress};

impl Acting {
    #[tactic(auto, unfolding(machine::specs::Triggers::triggers))]
    pub(super) fn triggers(mut self, wait: u16, send: u16) -> CoreResult
        ensures { (counts : List ℕ) → act_of result counts ≡ triggers self.c (engine_of self.own counts) wait send }
    {
        if all_pending(self.own.pending, wait) {
            self.own.pending ^= wait;
            return self.ends(Effect::Keep, send, step_pc(self.own.pc, 1));
        }
        self.lasts(Effect::Keep, Progress::Triggering { wait, send })
    }
}
