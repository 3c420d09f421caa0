// From 16 bits to an instruction word. The leading four bits choose the function that reads the
// rest; what was read is kept if it encodes to the same bits again. Functions that crate decoder has too
// stand here again, since the two are compared.
#![tactic(auto, unfolding(word::specs::Decode::reading))]

ghost use Rattle.std.specs.Prelude.{◌≡◌, ◌/◌, ◌%◌, ◌≤◌, ◌<◌};
ghost use Rattle.word.specs.declared.Word.TheVariants.{Jump, Arith, ArithVar, MuxAt};
ghost use Rattle.word.specs.Profile.{LP5523};
ghost use Rattle.word.specs.Steps.{address_at};
ghost use Rattle.word.specs.Decode.{choose, ramps, ramp_vars, sums, reading, decode_of};

use word::{Address, ArithOp, ArithVarOp, Direction, JumpOp, MuxAtOp, MuxMoveOp, Step, Word};

// A ramp's direction goes by ranges, as `reading` has it; crate decoder goes by the bit.
fn ramp_at(code: u16) -> Word
    ensures { result ≡ choose (code % 512) (ramps code) }
{
    let prescale = code / 16384 % 2;
    let time = code / 512 % 32;
    if code % 512 == 0 {
        return Word::Wait { prescale, time };
    }
    Word::Ramp {
        prescale,
        time,
        dir: if code % 512 < 256 {
            Direction::Up
        } else {
            Direction::Down
        },
        count: code % 256,
    }
}

fn ramp_var_at(code: u16) -> Word
    ensures { result ≡ choose (code % 32) (ramp_vars code) }
{
    Word::RampVar {
        prescale: code / 32 % 2,
        dir: if code % 32 < 16 {
            Direction::Up
        } else {
            Direction::Down
        },
        time: code / 4 % 4,
        count: code % 4,
    }
}

fn arith_at(code: u16, op: ArithOp) -> Word
    ensures { result ≡ Arith op (code / 1024 % 4) (code % 256) }
{
    Word::Arith {
        op,
        to: code / 1024 % 4,
        value: code % 256,
    }
}

fn arith_var_at(code: u16, op: ArithVarOp) -> Word
    ensures { result ≡ ArithVar op (code / 1024 % 4) (code / 4 % 4) (code % 4) }
{
    Word::ArithVar {
        op,
        to: code / 1024 % 4,
        left: code / 4 % 4,
        right: code % 4,
    }
}

fn sum_at(code: u16) -> Word
    ensures { result ≡ choose (code % 1024) (sums code) }
{
    match code % 1024 {
        ..0x100 => arith_at(code, ArithOp::Ld),
        ..0x200 => arith_at(code, ArithOp::Add),
        ..0x300 => arith_at(code, ArithOp::Sub),
        ..0x310 => arith_var_at(code, ArithVarOp::AddVar),
        _ => arith_var_at(code, ArithVarOp::SubVar),
    }
}

fn jump_at(code: u16, op: JumpOp) -> Word
    ensures { result ≡ Jump op (code / 16 % 32) (code / 4 % 4) (code % 4) }
{
    Word::Jump {
        op,
        skip: code / 16 % 32,
        left: code / 4 % 4,
        right: code % 4,
    }
}

// Words that begin with 0 to 7.
fn from_0(code: u16) -> Word
    requires { code < 0x8000 }
    ensures { result ≡ reading code }
{
    match code {
        ..0x0200 => Word::Rst,
        ..0x4000 => ramp_at(code),
        ..0x4200 => Word::Set { value: code % 256 },
        _ => ramp_at(code),
    }
}

// Words that begin with 8.
fn from_8(code: u16) -> Word
    requires { (0x8000 ≤ code) × (code < 0x9000) }
    ensures { result ≡ reading code }
{
    match code {
        ..0x8460 => ramp_var_at(code),
        ..0x8600 => Word::SetVar { from: code % 4 },
        ..0x8800 => Word::BranchVar {
            loops: code % 4,
            step: Step(code / 4 % 128),
        },
        ..0x8A00 => jump_at(code, JumpOp::Jne),
        ..0x8C00 => jump_at(code, JumpOp::Jl),
        ..0x8E00 => jump_at(code, JumpOp::Jge),
        _ => jump_at(code, JumpOp::Je),
    }
}

fn mux_at(code: u16, op: MuxAtOp) -> Word
    ensures { result ≡ MuxAt op (address_at (code % 128)) }
{
    Word::MuxAt {
        op,
        address: Address(code % 128),
    }
}

// Words that begin with 9.
fn from_9(code: u16) -> Word
    requires { (0x9000 ≤ code) × (code < 0xA000) }
    ensures { result ≡ reading code }
{
    match code {
        ..0x9C00 => sum_at(code),
        ..0x9C80 => mux_at(code, MuxAtOp::MuxMapStart),
        ..0x9D00 => mux_at(code, MuxAtOp::MuxLdEnd),
        ..0x9E00 => from_9d(code),
        ..0x9F00 => mux_at(code, MuxAtOp::MuxLdStart),
        ..0x9F80 => mux_at(code, MuxAtOp::MuxLdAddr),
        _ => mux_at(code, MuxAtOp::MuxMapAddr),
    }
}

// Words that begin with 9D.
fn from_9d(code: u16) -> Word
    requires { (0x9D00 ≤ code) × (code < 0x9E00) }
    ensures { result ≡ reading code }
{
    let op = match code {
        ..0x9D01 => return Word::MuxClr,
        ..0x9D80 => return Word::MuxSel { output: code % 128 },
        ..0x9D81 => MuxMoveOp::MuxMapNext,
        ..0x9DC0 => MuxMoveOp::MuxLdNext,
        ..0x9DC1 => MuxMoveOp::MuxMapPrev,
        _ => MuxMoveOp::MuxLdPrev,
    };
    Word::MuxMove { op }
}

// Words that begin with C or D.
fn from_c(code: u16) -> Word
    requires { (0xC000 ≤ code) × (code < 0xE000) }
    ensures { result ≡ reading code }
{
    if code == 0xC400 {
        return Word::Int;
    }
    Word::End {
        int: code / 4096 % 2,
        reset: code / 2048 % 2,
    }
}

// The word that a code's place in the table promises, its operands read from their bits.
fn read(code: u16) -> Word
    ensures { result ≡ reading code }
{
    match code / 4096 {
        0..=7 => from_0(code),
        8 => from_8(code),
        9 => from_9(code),
        10..=11 => Word::Branch {
            loops: code / 128 % 64,
            step: Step(code % 128),
        },
        12..=13 => from_c(code),
        _ => Word::Trigger {
            wait: code / 128 % 64,
            send: code / 2 % 64,
        },
    }
}

// The word that 16 bits are; Undefined where no word has them.
#[tactic(auto, unfolding(word::specs::Decode::decode_of))]
pub fn decode(code: u16) -> Word
    ensures { result ≡ decode_of LP5523 code }
{
    let word = read(code);
    if encoder::encode(word) == Ok(code) {
        word
    } else {
        Word::Undefined
    }
}
