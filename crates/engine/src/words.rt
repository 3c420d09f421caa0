// What each word does at its first beat. The match over all words is in parts, by the order of the
// words in `Word`: the proof of a part carries what all its arms call.
ghost use Rattle.std.specs.Prelude.{◌≡◌, ℕ, List};
ghost use Rattle.word.specs.Profile.{LP5523};
ghost use Rattle.machine.specs.Words.{begins};
ghost use Rattle.engine_core.specs.Core.{engine_of};
ghost use Rattle.engine.specs.internal.Act.{act_of};
ghost use Rattle.engine.specs.internal.Operands.{From};

use super::acting::Acting;
use super::fetches::Fetched;
use crate::CoreResult;
use word::{WORDS, Word};

// `memory`, `counts` and `fetched` stand side by side: a struct of them would be made anew at each call.
impl Acting {
    // Branches, end, int, triggers and undefined words.
    fn begins_control(self, counts: &mut [u8; WORDS], fetched: Fetched) -> CoreResult
        requires { From 14 fetched.word }
        ensures { (d : ℕ) (memory : List ℕ) → act_of result counts.new ≡ begins LP5523 self.c d memory (engine_of self.own counts.old) fetched.at fetched.word }
    {
        match fetched.word {
            Word::Branch { loops, step } => { self.branches(counts, fetched, loops as u8, step) }
            Word::End { int, reset } => self.stops(counts, int == 1, reset == 1),
            Word::Int => self.interrupts(),
            Word::Trigger { wait, send } => self.triggers(wait, send),
            _ => self.faults(),
        }
    }

    // Words of the mapping table, and those after them.
    fn begins_table(
        self,
        memory: &[u16; WORDS],
        counts: &mut [u8; WORDS],
        fetched: Fetched,
    ) -> CoreResult
        requires { From 10 fetched.word }
        ensures { (d : ℕ) → act_of result counts.new ≡ begins LP5523 self.c d memory.now (engine_of self.own counts.old) fetched.at fetched.word }
    {
        match fetched.word {
            Word::MuxAt { op, address } => self.mux_at(memory, op, address),
            Word::MuxClr => self.mux_clr(),
            Word::MuxSel { output } => self.mux_sel(output),
            Word::MuxMove { op } => self.mux_move(memory, op),
            _ => self.begins_control(counts, fetched),
        }
    }

    // Words of the variables, and those after them.
    fn begins_variable(
        self,
        memory: &[u16; WORDS],
        counts: &mut [u8; WORDS],
        fetched: Fetched,
    ) -> CoreResult
        requires { From 6 fetched.word }
        ensures { act_of result counts.new ≡ begins LP5523 self.c self.d memory.now (engine_of self.own counts.old) fetched.at fetched.word }
    {
        match fetched.word {
            Word::BranchVar { loops, step } => self.branch_var(counts, fetched, loops, step),
            Word::Jump {
                op,
                skip,
                left,
                right,
            } => self.jump(op, skip as u8, left, right),
            Word::Arith { op, to, value } => self.arith(op, to, value as u8),
            Word::ArithVar {
                op,
                to,
                left,
                right,
            } => self.arith_var(op, to, left, right),
            _ => self.begins_table(memory, counts, fetched),
        }
    }

    // The first beat of a word that was fetched.
    pub(super) fn begins(
        self,
        memory: &[u16; WORDS],
        counts: &mut [u8; WORDS],
        fetched: Fetched,
    ) -> CoreResult
        ensures { act_of result counts.new ≡ begins LP5523 self.c self.d memory.now (engine_of self.own counts.old) fetched.at fetched.word }
    {
        match fetched.word {
            Word::Rst => self.restarts(counts),
            Word::Ramp {
                prescale,
                time,
                dir,
                count,
            } => self.ramp(prescale, time as u8, dir, count),
            Word::Wait { prescale, time } => self.wait(prescale, time as u8),
            Word::Set { value } => self.puts(value as u8),
            Word::RampVar {
                prescale,
                dir,
                time,
                count,
            } => self.ramp_var(prescale, dir, time, count),
            Word::SetVar { from } => self.set_var(from),
            _ => self.begins_variable(memory, counts, fetched),
        }
    }
}
