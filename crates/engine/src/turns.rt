// An engine's turn: a beat of its word, if it acts.
ghost use Rattle.std.specs.Prelude.{◌≡◌, ℕ, List, if◌then◌else◌};
ghost use Rattle.word.specs.Profile.{LP5523};
ghost use Rattle.machine.specs.Parts.{with_pc};
ghost use Rattle.machine.specs.Turn.{acts, address_of, returned, starts, beat_of};
ghost use Rattle.engine_core.specs.Core.{engine_of};
ghost use Rattle.engine.specs.internal.Act.{act_of, rests};

use super::acting::Acting;
use super::fetches::Program;
use super::lasting::{effect_of, outlasts, progressed};
use crate::CoreResult;
use engine_core::EngineCore;
use machine::Progress;
use word::{Step, WORDS};

fn address_of(k: EngineCore) -> usize
    ensures { result ≡ address_of k.start k.pc }
{
    k.start.0 as usize + k.pc.0 as usize
}

// PC as the engine fetches: past the memory's last word it becomes 0 first.
fn fetch_pc(k: EngineCore) -> Step
    ensures { (counts : List ℕ) → with_pc result (engine_of k counts) ≡ returned LP5523 (engine_of k counts) }
{
    if address_of(k) >= WORDS {
        Step(0)
    } else {
        k.pc
    }
}

// `program` and `counts` stand side by side: the counts alone are lent to be changed, and another engine's at
// each turn.
impl Acting {
    // The engine fetches its word. If its start lies past the memory, the word is 0, which is rst.
    fn fetch(mut self, program: &Program, counts: &mut [u8; WORDS]) -> CoreResult
        ensures { act_of result counts.new ≡ starts LP5523 self.c self.d program.now.memory.now (returned LP5523 (engine_of self.own counts.old)) }
    {
        self.own.pc = fetch_pc(self.own);
        let at = address_of(self.own);
        if at >= WORDS {
            return self.restarts(counts);
        }
        self.begins(program.memory, counts, program.fetched(at))
    }

    // A beat of an engine that acts, by its word in progress.
    fn beat(self, program: &Program, counts: &mut [u8; WORDS]) -> CoreResult
        ensures { act_of result counts.new ≡ beat_of LP5523 self.c self.d program.now.memory.now (engine_of self.own counts.old) self.own.progress }
    {
        match self.own.progress {
            Progress::BetweenWords => self.fetch(program, counts),
            Progress::Waiting { left } => self.waits(left),
            Progress::Ramping {
                dir,
                part,
                left,
                parts,
            } => self.ramps(dir, part, left, parts),
            Progress::Triggering { wait, send } => self.triggers(wait, send),
        }
    }

    // An engine's turn, with the branch counts, which it may change.
    pub(super) fn turn(self, program: &Program, counts: &mut [u8; WORDS]) -> CoreResult
        ensures { act_of result counts.new ≡ (if acts (engine_of self.own counts.old) then beat_of LP5523 self.c self.d program.now.memory.now (engine_of self.own counts.old) self.own.progress else rests self.c (engine_of self.own counts.old)) }
    {
        if outlasts(self.own) {
            return self.lasts(effect_of(self.own.progress), progressed(self.own));
        }
        if !self.own.acts() {
            return self.rests();
        }
        self.beat(program, counts)
    }
}
