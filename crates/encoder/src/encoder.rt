// From an instruction word to its 16 bits. A number that does not fit its field is refused.
ghost use Rattle.std.specs.Prelude.{◌≡◌, [], ◌∷◌, ◌≤◌, true, false, max, OkIff, IfOk, IfErr};
ghost use Rattle.std.specs.Range.{range_inclusive_start, range_inclusive_end, range_inclusive_exhausted};
ghost use denote.Enum.Declared.{tag_of};
ghost use Rattle.word.specs.declared.EncodeError.TheVariants.{OutsideField};
ghost use Rattle.word.specs.contracts.Word.{the_type};
ghost use Rattle.word.specs.Profile.{LP5523, ◌to◌};
ghost use Rattle.word.specs.Field.{inside};
ghost use Rattle.word.specs.Answer.{answer_of};
ghost use Rattle.word.specs.Table.{mux_move_code, encode_of};

use std::ops::RangeInclusive;
use word::{
    Address, ArithOp, ArithVarOp, Direction, EncodeError, JumpOp, MuxAtOp, MuxMoveOp, Word,
};

// A number whose field holds those of a range.
#[tactic(auto, unfolding(word::specs::Field::inside))]
fn field(x: u16, range: RangeInclusive<u16>) -> Result<u16, EncodeError>
    requires { range_inclusive_exhausted range ≡ false }
    ensures ok { OkIff result (inside (range_inclusive_start range to range_inclusive_end range ∷ []) x ≡ true) x }
    ensures most { IfOk result (λ v. v ≤ range_inclusive_end range) }
    ensures outside { IfErr result (λ e. e ≡ OutsideField) }
{
    if range.contains(&x) {
        Ok(x)
    } else {
        Err(EncodeError::OutsideField)
    }
}

// A number whose field holds those of two ranges.
#[tactic(auto, unfolding(word::specs::Field::inside))]
fn field_of_two(
    x: u16,
    low: RangeInclusive<u16>,
    high: RangeInclusive<u16>,
) -> Result<u16, EncodeError>
    requires low { range_inclusive_exhausted low ≡ false }
    requires high { range_inclusive_exhausted high ≡ false }
    ensures ok { OkIff result (inside (range_inclusive_start low to range_inclusive_end low ∷ range_inclusive_start high to range_inclusive_end high ∷ []) x ≡ true) x }
    ensures most { IfOk result (λ v. v ≤ max (range_inclusive_end low) (range_inclusive_end high)) }
    ensures outside { IfErr result (λ e. e ≡ OutsideField) }
{
    field(x, low).or(field(x, high))
}

// Here and below, the rows of document 01's table with an op or a direction: the base that it stands
// for, and each number at its bits.

// A ramp up by 0 is refused.
fn ramp(prescale: u16, time: u16, dir: Direction, count: u16) -> Result<u16, EncodeError>
    ensures { answer_of result ≡ encode_of LP5523 (Word.Ramp prescale time dir count) }
{
    let base = 0x4000 * field(prescale, 0..=1)? + 0x200 * field(time, 1..=31)?;
    match dir {
        Direction::Up => Ok(base + field(count, 1..=255)?),
        Direction::Down => Ok(0x0100 + base + field(count, 0..=255)?),
    }
}

fn ramp_var(prescale: u16, dir: Direction, time: u16, count: u16) -> Result<u16, EncodeError>
    ensures { answer_of result ≡ encode_of LP5523 (Word.RampVar prescale dir time count) }
{
    let base = match dir {
        Direction::Up => 0x8400,
        Direction::Down => 0x8410,
    };
    Ok(base + 32 * field(prescale, 0..=1)? + 4 * field(time, 0..=3)? + field(count, 0..=3)?)
}

fn jump(op: JumpOp, skip: u16, left: u16, right: u16) -> Result<u16, EncodeError>
    ensures { answer_of result ≡ encode_of LP5523 (Word.Jump op skip left right) }
{
    let base = match op {
        JumpOp::Jne => 0x8800,
        JumpOp::Jl => 0x8A00,
        JumpOp::Jge => 0x8C00,
        JumpOp::Je => 0x8E00,
    };
    Ok(base + 16 * field(skip, 0..=31)? + 4 * field(left, 0..=3)? + field(right, 0..=3)?)
}

fn arith(op: ArithOp, target: u16, value: u16) -> Result<u16, EncodeError>
    ensures { answer_of result ≡ encode_of LP5523 (Word.Arith op target value) }
{
    let base = match op {
        ArithOp::Ld => 0x9000,
        ArithOp::Add => 0x9100,
        ArithOp::Sub => 0x9200,
    };
    Ok(base + 1024 * field(target, 0..=2)? + field(value, 0..=255)?)
}

fn arith_var(op: ArithVarOp, target: u16, left: u16, right: u16) -> Result<u16, EncodeError>
    ensures { answer_of result ≡ encode_of LP5523 (Word.ArithVar op target left right) }
{
    let base = match op {
        ArithVarOp::AddVar => 0x9300,
        ArithVarOp::SubVar => 0x9310,
    };
    Ok(base + 1024 * field(target, 0..=2)? + 4 * field(left, 0..=3)? + field(right, 0..=3)?)
}

fn mux_at(op: MuxAtOp, address: Address) -> Result<u16, EncodeError>
    ensures { answer_of result ≡ encode_of LP5523 (Word.MuxAt op address) }
{
    let base = match op {
        MuxAtOp::MuxMapStart => 0x9C00,
        MuxAtOp::MuxLdEnd => 0x9C80,
        MuxAtOp::MuxLdStart => 0x9E00,
        MuxAtOp::MuxLdAddr => 0x9F00,
        MuxAtOp::MuxMapAddr => 0x9F80,
    };
    Ok(base + field(address.0, 0..=95)?)
}

fn mux_move(op: MuxMoveOp) -> u16
    ensures { result ≡ mux_move_code op }
{
    match op {
        MuxMoveOp::MuxMapNext => 0x9D80,
        MuxMoveOp::MuxLdNext => 0x9D81,
        MuxMoveOp::MuxMapPrev => 0x9DC0,
        MuxMoveOp::MuxLdPrev => 0x9DC1,
    }
}

// The words from `ArithVar` on, case 9 of `Word` counted from 0. All rows in one function would be
// too long to read.
fn encode_later(word: Word) -> Result<u16, EncodeError>
    requires { 9 ≤ tag_of the_type word }
    ensures { answer_of result ≡ encode_of LP5523 word }
{
    match word {
        Word::ArithVar {
            op,
            to,
            left,
            right,
        } => arith_var(op, to, left, right),
        Word::MuxAt { op, address } => mux_at(op, address),
        Word::MuxClr => Ok(0x9D00),
        Word::MuxSel { output } => Ok(0x9D00 + field_of_two(output, 1..=9, 16..=16)?),
        Word::MuxMove { op } => Ok(mux_move(op)),
        Word::Branch { loops, step } => {
            Ok(0xA000 + 128 * field(loops, 0..=63)? + field(step.0, 0..=127)?)
        }
        Word::End { int, reset } => {
            Ok(0xC000 + 4096 * field(int, 0..=1)? + 2048 * field(reset, 0..=1)?)
        }
        Word::Int => Ok(0xC400),
        Word::Trigger { wait, send } => {
            Ok(
                0xE000
                    + 128 * field_of_two(wait, 0..=7, 32..=39)?
                    + 2 * field_of_two(send, 0..=7, 32..=39)?,
            )
        }
        _ => Err(EncodeError::UndefinedWord),
    }
}

// The 16 bits of a word, or its refusal.
pub fn encode(word: Word) -> Result<u16, EncodeError>
    ensures { answer_of result ≡ encode_of LP5523 word }
{
    match word {
        Word::Rst => Ok(0x0000),
        Word::Ramp {
            prescale,
            time,
            dir,
            count,
        } => ramp(prescale, time, dir, count),
        Word::Wait { prescale, time } => {
            Ok(0x4000 * field(prescale, 0..=1)? + 0x200 * field(time, 1..=31)?)
        }
        Word::Set { value } => Ok(0x4000 + field(value, 0..=255)?),
        Word::RampVar {
            prescale,
            dir,
            time,
            count,
        } => ramp_var(prescale, dir, time, count),
        Word::SetVar { from } => Ok(0x8460 + field(from, 0..=3)?),
        Word::BranchVar { loops, step } => {
            Ok(0x8600 + 4 * field(step.0, 0..=127)? + field(loops, 0..=3)?)
        }
        Word::Jump {
            op,
            skip,
            left,
            right,
        } => jump(op, skip, left, right),
        Word::Arith { op, to, value } => arith(op, to, value),
        _ => encode_later(word),
    }
}
