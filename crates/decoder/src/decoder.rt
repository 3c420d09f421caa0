// From 16 bits to an instruction word. The leading four bits choose the function that knows the rows
// of the table that begin so; it tests their ranges and reserved bits.
#![tactic(auto, using(crate::proofs::Rows::rows, crate::proofs::Gaps::gaps))]

ghost use Rattle.std.specs.Prelude.{◌≡◌, ◌+◌, ◌*◌, ◌/◌, ◌%◌, ◌≤◌, ◌<◌};
ghost use Rattle.word.specs.Profile.{LP5523};
ghost use Rattle.word.specs.Table.{jump_base, arith_base, arith_var_base, mux_at_base};
ghost use Rattle.word.specs.Decode.{decode_of};

use word::{Address, ArithOp, ArithVarOp, Direction, JumpOp, MuxAtOp, MuxMoveOp, Step, Word};

// Words that begin with 0 to 7: with a time they are wait and ramp.
fn from_0(code: u16) -> Word
    requires { code < 0x8000 }
    ensures { result ≡ decode_of LP5523 code }
{
    let prescale = code / 16384;
    let time = code / 512 % 32;
    if time == 0 {
        return match code {
            0x0000 => Word::Rst,
            0x4000..=0x40FF => Word::Set { value: code % 256 },
            _ => Word::Undefined,
        };
    }
    if code % 512 == 0 {
        return Word::Wait { prescale, time };
    }
    Word::Ramp {
        prescale,
        time,
        dir: Direction::of_sign(code / 256 % 2),
        count: code % 256,
    }
}

// Words that begin with 84 or 85: ramps by variables, with the sign in bit 4, and set-var, 8460 to 8463.
fn from_84(code: u16) -> Word
    requires { (0x8400 ≤ code) × (code < 0x8600) }
    ensures { result ≡ decode_of LP5523 code }
{
    match code {
        0x8400..=0x843F => Word::RampVar {
            prescale: code / 32 % 2,
            dir: Direction::of_sign(code / 16 % 2),
            time: code / 4 % 4,
            count: code % 4,
        },
        0x8460..=0x8463 => Word::SetVar { from: code % 4 },
        _ => Word::Undefined,
    }
}

// The rows with an op, where a code's leading bits are the op's base.
fn jump_at(code: u16, op: JumpOp) -> Word
    requires { jump_base op ≡ 512 * (code / 512) }
    ensures { result ≡ decode_of LP5523 code }
{
    Word::Jump {
        op,
        skip: code / 16 % 32,
        left: code / 4 % 4,
        right: code % 4,
    }
}

// Words that begin with 8, by the three bits that follow.
fn from_8(code: u16) -> Word
    requires { (0x8000 ≤ code) × (code < 0x9000) }
    ensures { result ≡ decode_of LP5523 code }
{
    match code / 512 % 8 {
        0..=1 => Word::Undefined,
        2 => from_84(code),
        3 => Word::BranchVar {
            loops: code % 4,
            step: Step(code / 4 % 128),
        },
        4 => jump_at(code, JumpOp::Jne),
        5 => jump_at(code, JumpOp::Jl),
        6 => jump_at(code, JumpOp::Jge),
        _ => jump_at(code, JumpOp::Je),
    }
}

// A type with the range as its fact would have to be made at each call.
fn arith_at(code: u16, op: ArithOp) -> Word
    requires within { (0x9000 ≤ code) × (code < 0x9C00) }
    requires base { arith_base op ≡ 0x9000 + 256 * (code / 256 % 4) }
    ensures { result ≡ decode_of LP5523 code }
{
    Word::Arith {
        op,
        to: code / 1024 % 4,
        value: code % 256,
    }
}

fn arith_var_at(code: u16, op: ArithVarOp) -> Word
    requires within { (0x9000 ≤ code) × (code < 0x9C00) × (code / 256 % 4 ≡ 3) }
    requires base { arith_var_base op ≡ 0x9300 + 16 * (code / 16 % 16) }
    ensures { result ≡ decode_of LP5523 code }
{
    Word::ArithVar {
        op,
        to: code / 1024 % 4,
        left: code / 4 % 4,
        right: code % 4,
    }
}

// Sums of variables, by bits 7:4.
fn sum_var_at(code: u16) -> Word
    requires { (0x9000 ≤ code) × (code < 0x9C00) × (code / 256 % 4 ≡ 3) }
    ensures { result ≡ decode_of LP5523 code }
{
    match code / 16 % 16 {
        0 => arith_var_at(code, ArithVarOp::AddVar),
        1 => arith_var_at(code, ArithVarOp::SubVar),
        _ => Word::Undefined,
    }
}

// Words that write a variable, by bits 9:8.
fn sum_at(code: u16) -> Word
    requires { (0x9000 ≤ code) × (code < 0x9C00) }
    ensures { result ≡ decode_of LP5523 code }
{
    match code / 256 % 4 {
        0 => arith_at(code, ArithOp::Ld),
        1 => arith_at(code, ArithOp::Add),
        2 => arith_at(code, ArithOp::Sub),
        _ => sum_var_at(code),
    }
}

// Words that begin with 9D: mux-clr, mux-sel and the moves.
fn from_9d(code: u16) -> Word
    requires { (0x9D00 ≤ code) × (code < 0x9E00) }
    ensures { result ≡ decode_of LP5523 code }
{
    let low = code % 256;
    match low {
        0 => Word::MuxClr,
        1..=9 | 16 => Word::MuxSel { output: low },
        0x80 => Word::MuxMove {
            op: MuxMoveOp::MuxMapNext,
        },
        0x81 => Word::MuxMove {
            op: MuxMoveOp::MuxLdNext,
        },
        0xC0 => Word::MuxMove {
            op: MuxMoveOp::MuxMapPrev,
        },
        0xC1 => Word::MuxMove {
            op: MuxMoveOp::MuxLdPrev,
        },
        _ => Word::Undefined,
    }
}

fn mux_at(code: u16, op: MuxAtOp) -> Word
    requires base { mux_at_base op ≡ 128 * (code / 128) }
    requires within { code % 128 < 96 }
    ensures { result ≡ decode_of LP5523 code }
{
    Word::MuxAt {
        op,
        address: Address(code % 128),
    }
}

// Mapping words: those with an address by bits 9:7.
fn from_9c(code: u16) -> Word
    requires { (0x9C00 ≤ code) × (code < 0xA000) }
    ensures { result ≡ decode_of LP5523 code }
{
    if code / 256 == 0x9D {
        return from_9d(code);
    }
    if code % 128 >= 96 {
        return Word::Undefined;
    }
    match code / 128 % 8 {
        0 => mux_at(code, MuxAtOp::MuxMapStart),
        1 => mux_at(code, MuxAtOp::MuxLdEnd),
        4 => mux_at(code, MuxAtOp::MuxLdStart),
        6 => mux_at(code, MuxAtOp::MuxLdAddr),
        7 => mux_at(code, MuxAtOp::MuxMapAddr),
        _ => Word::Undefined,
    }
}

// Words that begin with C or D.
fn from_c(code: u16) -> Word
    requires { (0xC000 ≤ code) × (code < 0xE000) }
    ensures { result ≡ decode_of LP5523 code }
{
    match code {
        0xC000 | 0xC800 | 0xD000 | 0xD800 => Word::End {
            int: code / 4096 % 2,
            reset: code / 2048 % 2,
        },
        0xC400 => Word::Int,
        _ => Word::Undefined,
    }
}

// Words that begin with E or F: bits 3 and 4 of both fields and bit 0 are reserved.
fn from_e(code: u16) -> Word
    requires { 0xE000 ≤ code }
    ensures { result ≡ decode_of LP5523 code }
{
    let wait = code / 128 % 64;
    let send = code / 2 % 64;
    if wait / 8 % 4 != 0 || send / 8 % 4 != 0 || code % 2 != 0 {
        return Word::Undefined;
    }
    Word::Trigger { wait, send }
}

// The word that 16 bits are; Undefined where no word has them.
pub fn decode(code: u16) -> Word
    ensures { result ≡ decode_of LP5523 code }
{
    match code / 4096 {
        0..=7 => from_0(code),
        8 => from_8(code),
        // by the variable that is written; 3 is none. A match, since the code compiled from an `if` is
        // slower (bench/README.md)
        9 => match code / 1024 % 4 {
            3 => from_9c(code),
            _ => sum_at(code),
        },
        10..=11 => Word::Branch {
            loops: code / 128 % 64,
            step: Step(code % 128),
        },
        12..=13 => from_c(code),
        _ => from_e(code),
    }
}
