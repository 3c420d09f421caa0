// How a word goes on to its next beat, or ends.
ghost use Rattle.std.specs.Prelude.{◌≡◌, ℕ, List};
ghost use Rattle.machine.specs.WordEnd.{step_pc, pc_after, exec_after, finish, ends, goes_on, lasts};
ghost use Rattle.engine_core.specs.Core.{engine_of};
ghost use Rattle.engine.specs.internal.Act.{act_of, rests};

use super::acting::Acting;
use crate::CoreResult;
use engine_core::EngineCore;
use machine::{Effect, Exec, Progress};
use word::Step;

pub(super) fn step_pc(pc: Step, n: u16) -> Step
    ensures { result ≡ step_pc pc n }
{
    Step(pc.0.wrapping_add(n))
}

fn pc_after(exec: Exec, old: Step, new: Step) -> Step
    ensures { result ≡ pc_after exec old new }
{
    if matches!(exec, Exec::Once) { old } else { new }
}

fn exec_after(exec: Exec) -> Exec
    ensures { result ≡ exec_after exec }
{
    match exec {
        Exec::Free => Exec::Free,
        Exec::Hold | Exec::SingleStep | Exec::Once => Exec::Hold,
    }
}

#[tactic(auto, unfolding(machine::specs::WordEnd::finish))]
fn finish(mut k: EngineCore, pc: Step) -> EngineCore
    ensures { (counts : List ℕ) → engine_of result counts ≡ finish pc (engine_of k counts) }
{
    k.pc = pc_after(k.exec, k.pc, pc);
    k.exec = exec_after(k.exec);
    k.progress = Progress::BetweenWords;
    k
}

impl Acting {
    pub(super) fn ends(self, effect: Effect, send: u16, pc: Step) -> CoreResult
        ensures { (counts : List ℕ) → act_of result counts ≡ ends self.c (engine_of self.own counts) effect send pc }
    {
        CoreResult {
            own: finish(self.own, pc),
            send,
            effect,
            c: self.c,
            ended: true,
        }
    }

    pub(super) fn goes_on(self) -> CoreResult
        ensures { (counts : List ℕ) → act_of result counts ≡ goes_on self.c (engine_of self.own counts) }
    {
        self.ends(Effect::Keep, 0, step_pc(self.own.pc, 1))
    }

    // The engine does nothing.
    pub(super) fn rests(self) -> CoreResult
        ensures { (counts : List ℕ) → act_of result counts ≡ rests self.c (engine_of self.own counts) }
    {
        self.lasts(Effect::Keep, self.own.progress)
    }

    pub(super) fn lasts(mut self, effect: Effect, progress: Progress) -> CoreResult
        ensures { (counts : List ℕ) → act_of result counts ≡ lasts self.c (engine_of self.own counts) effect progress }
    {
        self.own.progress = progress;
        CoreResult {
            own: self.own,
            send: 0,
            effect,
            c: self.c,
            ended: false,
        }
    }
}
