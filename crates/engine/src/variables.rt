// Variables, and the words that compute with them.
ghost use Rattle.std.specs.Prelude.{◌≡◌, ℕ, List};
ghost use Rattle.machine.specs.WordEnd.{ends};
ghost use Rattle.machine.specs.Variables.{variable, computed, combined, assigns, jumps, jump_to};
ghost use Rattle.machine.specs.declared.Effect.TheVariants.{Keep};
ghost use Rattle.engine_core.specs.Core.{engine_of};
ghost use Rattle.engine.specs.internal.Act.{act_of};

use super::acting::Acting;
use super::word_end::step_pc;
use crate::CoreResult;
use machine::Effect;
use word::{ArithOp, ArithVarOp, JumpOp, Step};

fn computed(op: ArithOp, x: u8, n: u8) -> u8
    ensures { result ≡ computed op x n }
{
    match op {
        ArithOp::Ld => n,
        ArithOp::Add => x.wrapping_add(n),
        ArithOp::Sub => x.wrapping_sub(n),
    }
}

fn combined(op: ArithVarOp, x: u8, y: u8) -> u8
    ensures { result ≡ combined op x y }
{
    match op {
        ArithVarOp::AddVar => x.wrapping_add(y),
        ArithVarOp::SubVar => x.wrapping_sub(y),
    }
}

fn jumps(op: JumpOp, x: u8, y: u8) -> bool
    ensures { result ≡ jumps op x y }
{
    match op {
        JumpOp::Jne => x != y,
        JumpOp::Jl => x < y,
        JumpOp::Jge => x >= y,
        JumpOp::Je => x == y,
    }
}

fn jump_to(pc: Step, taken: bool, skip: u8) -> Step
    ensures { result ≡ jump_to pc taken skip }
{
    step_pc(pc, if taken { 1 + skip as u16 } else { 1 })
}

impl Acting {
    pub(super) fn variable(self, v: u16) -> u8
        ensures { (counts : List ℕ) → result ≡ variable self.c self.d (engine_of self.own counts) v }
    {
        match v {
            0 => self.own.a,
            1 => self.own.b,
            2 => self.c,
            _ => self.d,
        }
    }

    #[tactic(auto, unfolding(machine::specs::Variables::assigns))]
    fn assigns(mut self, v: u16, x: u8) -> CoreResult
        ensures { (counts : List ℕ) → act_of result counts ≡ assigns self.c (engine_of self.own counts) v x }
    {
        match v {
            0 => self.own.a = x,
            1 => self.own.b = x,
            2 => self.c = x,
            _ => {}
        }
        self.goes_on()
    }

    pub(super) fn jump(self, op: JumpOp, skip: u8, left: u16, right: u16) -> CoreResult
        ensures { (counts : List ℕ) → act_of result counts ≡ ends self.c (engine_of self.own counts) Keep 0 (jump_to self.own.pc (jumps op (variable self.c self.d (engine_of self.own counts) left) (variable self.c self.d (engine_of self.own counts) right)) skip) }
    {
        let taken = jumps(op, self.variable(left), self.variable(right));
        self.ends(Effect::Keep, 0, jump_to(self.own.pc, taken, skip))
    }

    pub(super) fn arith(self, op: ArithOp, to: u16, value: u8) -> CoreResult
        ensures { (counts : List ℕ) → act_of result counts ≡ assigns self.c (engine_of self.own counts) to (computed op (variable self.c self.d (engine_of self.own counts) to) value) }
    {
        self.assigns(to, computed(op, self.variable(to), value))
    }

    pub(super) fn arith_var(self, op: ArithVarOp, to: u16, left: u16, right: u16) -> CoreResult
        ensures { (counts : List ℕ) → act_of result counts ≡ assigns self.c (engine_of self.own counts) to (combined op (variable self.c self.d (engine_of self.own counts) left) (variable self.c self.d (engine_of self.own counts) right)) }
    {
        self.assigns(to, combined(op, self.variable(left), self.variable(right)))
    }
}
