// Words that set the held outputs or ramp them, and waits, at their first beat.
ghost use Rattle.std.specs.Prelude.{◌≡◌, ℕ, List};
ghost use Rattle.machine.specs.declared.Effect.TheVariants.{Put};
ghost use Rattle.machine.specs.WordEnd.{step_pc, ends};
ghost use Rattle.machine.specs.Durations.{beats_of, clamp_time, waits, ramps_from};
ghost use Rattle.machine.specs.Variables.{variable};
ghost use Rattle.engine_core.specs.Core.{engine_of};
ghost use Rattle.engine.specs.internal.Act.{act_of};

use super::acting::Acting;
use super::durations::{beats_of, clamp_time};
use super::word_end::step_pc;
use crate::CoreResult;
use machine::Effect;
use word::Direction;

impl Acting {
    pub(super) fn puts(self, value: u8) -> CoreResult
        ensures { (counts : List ℕ) → act_of result counts ≡ ends self.c (engine_of self.own counts) (Put value) 0 (step_pc self.own.pc 1) }
    {
        self.ends(Effect::Put { value }, 0, step_pc(self.own.pc, 1))
    }

    pub(super) fn set_var(self, from: u16) -> CoreResult
        ensures { (counts : List ℕ) → act_of result counts ≡ ends self.c (engine_of self.own counts) (Put (variable self.c self.d (engine_of self.own counts) from)) 0 (step_pc self.own.pc 1) }
    {
        self.puts(self.variable(from))
    }

    pub(super) fn wait(self, prescale: u16, time: u8) -> CoreResult
        ensures { (counts : List ℕ) → act_of result counts ≡ waits self.c (engine_of self.own counts) (beats_of prescale time) }
    {
        self.waits(beats_of(prescale, time))
    }

    // Operands, in the order of `Word`.
    pub(super) fn ramp(self, prescale: u16, time: u8, dir: Direction, count: u16) -> CoreResult
        ensures { (counts : List ℕ) → act_of result counts ≡ ramps_from self.c (engine_of self.own counts) dir (beats_of prescale time) count }
    {
        self.ramps_from(dir, beats_of(prescale, time), count)
    }

    pub(super) fn ramp_var(self, prescale: u16, dir: Direction, time: u16, count: u16) -> CoreResult
        ensures { (counts : List ℕ) → act_of result counts ≡ ramps_from self.c (engine_of self.own counts) dir (beats_of prescale (clamp_time (variable self.c self.d (engine_of self.own counts) time))) (variable self.c self.d (engine_of self.own counts) count) }
    {
        let part = beats_of(prescale, clamp_time(self.variable(time)));
        self.ramps_from(dir, part, self.variable(count) as u16)
    }
}
