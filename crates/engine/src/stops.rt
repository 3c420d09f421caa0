// rst, end and int, and words that are undefined.
ghost use Rattle.std.specs.Prelude.{◌≡◌, ℕ, true, List};
ghost use Rattle.word.specs.Profile.{LP5523};
ghost use Rattle.word.specs.Steps.{step_at};
ghost use Rattle.machine.specs.declared.Effect.TheVariants.{Keep};
ghost use Rattle.machine.specs.Parts.{zero_counts, with_interrupt, with_loops};
ghost use Rattle.machine.specs.WordEnd.{ends, goes_on};
ghost use Rattle.machine.specs.Words.{stops, faults};
ghost use Rattle.engine_core.specs.Core.{engine_of};
ghost use Rattle.engine.specs.internal.Act.{act_of};

use super::acting::Acting;
use crate::CoreResult;
use machine::{Effect, Exec, Mode};
use word::{Step, WORDS};

impl Acting {
    // rst
    pub(super) fn restarts(self, counts: &mut [u8; WORDS]) -> CoreResult
        ensures { act_of result counts.new ≡ ends self.c (with_loops (zero_counts LP5523) (engine_of self.own counts.old)) Keep 0 (step_at 0) }
    {
        *counts = [0; WORDS];
        self.ends(Effect::Keep, 0, Step(0))
    }

    // end
    #[tactic(auto, unfolding(machine::specs::Words::stops))]
    pub(super) fn stops(mut self, counts: &mut [u8; WORDS], int: bool, reset: bool) -> CoreResult
        ensures { act_of result counts.new ≡ stops LP5523 self.c (engine_of self.own counts.old) int reset }
    {
        self.own.interrupt |= int;
        let mut pc = self.own.pc;
        if reset {
            *counts = [0; WORDS];
            pc = Step(0);
        }
        let mut t = self.ends(Effect::Keep, 0, pc);
        t.own.exec = Exec::Hold;
        t
    }

    // int
    pub(super) fn interrupts(mut self) -> CoreResult
        ensures { (counts : List ℕ) → act_of result counts ≡ goes_on self.c (with_interrupt true (engine_of self.own counts)) }
    {
        self.own.interrupt = true;
        self.goes_on()
    }

    // An undefined word.
    pub(super) fn faults(mut self) -> CoreResult
        ensures { (counts : List ℕ) → act_of result counts ≡ faults self.c (engine_of self.own counts) }
    {
        self.own.mode = Mode::Halt;
        self.own.fault = true;
        self.rests()
    }
}
