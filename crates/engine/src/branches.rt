// Branches, by the count that the engine keeps for the word's address.
ghost use Rattle.std.specs.Prelude.{◌≡◌};
ghost use Rattle.machine.specs.Branches.{branches};
ghost use Rattle.machine.specs.Variables.{variable};
ghost use Rattle.engine_core.specs.Core.{engine_of};
ghost use Rattle.engine.specs.internal.Act.{act_of};

use super::acting::Acting;
use super::fetches::Fetched;
use crate::CoreResult;
use machine::Effect;
use word::{Step, WORDS};

impl Acting {
    #[tactic(auto, unfolding(machine::specs::Branches::branches))]
    pub(super) fn branches(
        self,
        counts: &mut [u8; WORDS],
        fetched: Fetched,
        loops: u8,
        step: Step,
    ) -> CoreResult
        ensures { act_of result counts.new ≡ branches self.c (engine_of self.own counts.old) fetched.at loops step }
    {
        let at = fetched.at;
        let count = counts[at];
        if count == 1 {
            counts[at] = 0;
            return self.goes_on();
        }
        counts[at] = if count == 0 { loops } else { count - 1 };
        self.ends(Effect::Keep, 0, step)
    }

    // A branch whose loops are read from a variable.
    pub(super) fn branch_var(
        self,
        counts: &mut [u8; WORDS],
        fetched: Fetched,
        loops: u16,
        step: Step,
    ) -> CoreResult
        ensures { act_of result counts.new ≡ branches self.c (engine_of self.own counts.old) fetched.at (variable self.c self.d (engine_of self.own counts.old) loops) step }
    {
        self.branches(counts, fetched, self.variable(loops), step)
    }
}
