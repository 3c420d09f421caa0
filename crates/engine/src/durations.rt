// Words that last: waits and ramps.
ghost use Rattle.std.specs.Prelude.{◌≡◌, ℕ, ◌-◌, List, if◌then◌else◌, nat_le};
ghost use Rattle.machine.specs.declared.Effect.TheVariants.{Move};
ghost use Rattle.machine.specs.declared.Progress.TheVariants.{Ramping};
ghost use Rattle.machine.specs.WordEnd.{step_pc, ends, lasts};
ghost use Rattle.machine.specs.Durations.{beats_of, clamp_time, waits, ramps, ramps_from};
ghost use Rattle.engine_core.specs.Core.{engine_of};
ghost use Rattle.engine.specs.internal.Act.{act_of};

use super::acting::Acting;
use super::word_end::step_pc;
use crate::CoreResult;
use machine::{Effect, Progress};
use word::Direction;

pub(super) fn beats_of(prescale: u16, time: u8) -> u16
    ensures { result ≡ beats_of prescale time }
{
    let time = time as u16;
    if prescale == 1 { 32 * time } else { time }
}

pub(super) fn clamp_time(time: u8) -> u8
    ensures { result ≡ clamp_time time }
{
    time.clamp(1, 31)
}

impl Acting {
    #[tactic(auto, unfolding(machine::specs::Durations::waits))]
    pub(super) fn waits(self, left: u16) -> CoreResult
        ensures { (counts : List ℕ) → act_of result counts ≡ waits self.c (engine_of self.own counts) left }
    {
        if left <= 1 {
            return self.goes_on();
        }
        self.lasts(Effect::Keep, Progress::Waiting { left: left - 1 })
    }

    // The last beat of a part. `dir`, `part`, `left`, `parts` are the fields of `Ramping`, whose form is public.
    fn part_ends(self, dir: Direction, part: u16, parts: u16) -> CoreResult
        ensures { (counts : List ℕ) → act_of result counts ≡ (if nat_le parts 1 then ends self.c (engine_of self.own counts) (Move dir) 0 (step_pc self.own.pc 1) else lasts self.c (engine_of self.own counts) (Move dir) (Ramping dir part part (parts - 1))) }
    {
        if parts <= 1 {
            return self.ends(Effect::Move { dir }, 0, step_pc(self.own.pc, 1));
        }
        let progress = Progress::Ramping {
            dir,
            part,
            left: part,
            parts: parts - 1,
        };
        self.lasts(Effect::Move { dir }, progress)
    }

    #[tactic(auto, unfolding(machine::specs::Durations::ramps))]
    pub(super) fn ramps(self, dir: Direction, part: u16, left: u16, parts: u16) -> CoreResult
        ensures { (counts : List ℕ) → act_of result counts ≡ ramps self.c (engine_of self.own counts) dir part left parts }
    {
        if left <= 1 {
            return self.part_ends(dir, part, parts);
        }
        let progress = Progress::Ramping {
            dir,
            part,
            left: left - 1,
            parts,
        };
        self.lasts(Effect::Keep, progress)
    }

    // Called at two places: without this hint the compiler leaves it a call, with its result in memory.
    #[inline(always)]
    pub(super) fn ramps_from(self, dir: Direction, part: u16, parts: u16) -> CoreResult
        ensures { (counts : List ℕ) → act_of result counts ≡ ramps_from self.c (engine_of self.own counts) dir part parts }
    {
        if parts == 0 {
            return self.waits(part);
        }
        self.ramps(dir, part, part, parts)
    }
}
