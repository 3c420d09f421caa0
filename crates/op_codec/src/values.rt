// A word as the values of its line: the place of its operation in document 01's table, counted from
// 0, and its operands in the order of the line. Values that the line doesn't have are 0.
// The places stand here as numbers, since they are document 01's rows, as op_lines/specs/Values has them.
ghost use Rattle.std.specs.Prelude.{◌≡◌, ◌≤◌};
ghost use denote.Enum.Declared.{tag_of};
ghost use Rattle.word.specs.Profile.{LP5523};
ghost use Rattle.word.specs.contracts.Word.{the_type};
ghost use Rattle.op_lines.specs.Values.{direction_place, jump_row, arith_row, arith_var_row, mux_at_row, mux_move_row, word_values};

use grammar::Values;
use word::{ArithOp, ArithVarOp, Direction, JumpOp, MuxAtOp, MuxMoveOp, Word};

fn direction_place(dir: Direction) -> u16
    ensures { result ≡ direction_place dir }
{
    match dir {
        Direction::Up => 0,
        Direction::Down => 1,
    }
}

fn jump_row(op: JumpOp) -> u16
    ensures { result ≡ jump_row op }
{
    match op {
        JumpOp::Jne => 7,
        JumpOp::Jl => 8,
        JumpOp::Jge => 9,
        JumpOp::Je => 10,
    }
}

fn arith_row(op: ArithOp) -> u16
    ensures { result ≡ arith_row op }
{
    match op {
        ArithOp::Ld => 11,
        ArithOp::Add => 12,
        ArithOp::Sub => 13,
    }
}

fn arith_var_row(op: ArithVarOp) -> u16
    ensures { result ≡ arith_var_row op }
{
    match op {
        ArithVarOp::AddVar => 14,
        ArithVarOp::SubVar => 15,
    }
}

fn mux_at_row(op: MuxAtOp) -> u16
    ensures { result ≡ mux_at_row op }
{
    match op {
        MuxAtOp::MuxMapStart => 16,
        MuxAtOp::MuxLdEnd => 17,
        MuxAtOp::MuxLdStart => 18,
        MuxAtOp::MuxLdAddr => 19,
        MuxAtOp::MuxMapAddr => 20,
    }
}

fn mux_move_row(op: MuxMoveOp) -> u16
    ensures { result ≡ mux_move_row op }
{
    match op {
        MuxMoveOp::MuxMapNext => 23,
        MuxMoveOp::MuxLdNext => 24,
        MuxMoveOp::MuxMapPrev => 25,
        MuxMoveOp::MuxLdPrev => 26,
    }
}

// The words from `MuxAt` on, case 10 of `Word` counted from 0.
#[tactic(auto, unfolding(grammar::specs::Values::values_of, op_lines::specs::Values::op_values))]
fn later_values(word: Word) -> Values
    requires { 10 ≤ tag_of the_type word }
    ensures { result ≡ word_values LP5523 word }
{
    match word {
        Word::MuxAt { op, address } => [mux_at_row(op), address.0, 0, 0, 0, 0, 0],
        Word::MuxClr => [21, 0, 0, 0, 0, 0, 0],
        Word::MuxSel { output } => [22, output, 0, 0, 0, 0, 0],
        Word::MuxMove { op } => [mux_move_row(op), 0, 0, 0, 0, 0, 0],
        Word::Branch { loops, step } => [27, loops, step.0, 0, 0, 0, 0],
        Word::End { int, reset } => [28, int, reset, 0, 0, 0, 0],
        Word::Int => [29, 0, 0, 0, 0, 0, 0],
        Word::Trigger { wait, send } => [30, wait, send, 0, 0, 0, 0],
        _ => [31, 0, 0, 0, 0, 0, 0],
    }
}

// An undefined word's place is past the last operation's.
#[tactic(auto, unfolding(grammar::specs::Values::values_of, op_lines::specs::Values::op_values))]
pub fn values_of(word: Word) -> Values
    ensures { result ≡ word_values LP5523 word }
{
    match word {
        Word::Rst => [0, 0, 0, 0, 0, 0, 0],
        Word::Ramp {
            prescale,
            time,
            dir,
            count,
        } => [1, prescale, time, direction_place(dir), count, 0, 0],
        Word::Wait { prescale, time } => [2, prescale, time, 0, 0, 0, 0],
        Word::Set { value } => [3, value, 0, 0, 0, 0, 0],
        Word::RampVar {
            prescale,
            dir,
            time,
            count,
        } => [4, prescale, direction_place(dir), time, count, 0, 0],
        Word::SetVar { from } => [5, from, 0, 0, 0, 0, 0],
        Word::BranchVar { loops, step } => [6, loops, step.0, 0, 0, 0, 0],
        Word::Jump {
            op,
            skip,
            left,
            right,
        } => [jump_row(op), skip, left, right, 0, 0, 0],
        Word::Arith { op, to, value } => [arith_row(op), to, value, 0, 0, 0, 0],
        Word::ArithVar {
            op,
            to,
            left,
            right,
        } => [arith_var_row(op), to, left, right, 0, 0, 0],
        _ => later_values(word),
    }
}
