// The word that the values of a line stand for. The numbers are document 01's rows, as
// op_lines/specs/Words has them.
ghost use Rattle.std.specs.Prelude.{◌≡◌, ◌≤◌, get_or};
ghost use Rattle.word.specs.Profile.{LP5523};
ghost use Rattle.op_lines.specs.Words.{word_of};

use grammar::Values;
use word::{Address, ArithOp, ArithVarOp, Direction, JumpOp, MuxAtOp, MuxMoveOp, Step, Word};

// The rows from `mux-map-start` on.
fn later_word(values: Values) -> Word
    requires { 16 ≤ get_or values 0 0 }
    ensures { result ≡ word_of LP5523 values }
{
    let [op, a, b, ..] = values;
    let mux_at = |op| Word::MuxAt {
        op,
        address: Address(a),
    };
    let mux_move = |op| Word::MuxMove { op };
    match op {
        16 => mux_at(MuxAtOp::MuxMapStart),
        17 => mux_at(MuxAtOp::MuxLdEnd),
        18 => mux_at(MuxAtOp::MuxLdStart),
        19 => mux_at(MuxAtOp::MuxLdAddr),
        20 => mux_at(MuxAtOp::MuxMapAddr),
        21 => Word::MuxClr,
        22 => Word::MuxSel { output: a },
        23 => mux_move(MuxMoveOp::MuxMapNext),
        24 => mux_move(MuxMoveOp::MuxLdNext),
        25 => mux_move(MuxMoveOp::MuxMapPrev),
        26 => mux_move(MuxMoveOp::MuxLdPrev),
        27 => Word::Branch {
            loops: a,
            step: Step(b),
        },
        28 => Word::End { int: a, reset: b },
        29 => Word::Int,
        30 => Word::Trigger { wait: a, send: b },
        _ => Word::Undefined,
    }
}

// The rows from `jne` on.
fn variable_word(values: Values) -> Word
    requires { 7 ≤ get_or values 0 0 }
    ensures { result ≡ word_of LP5523 values }
{
    let [op, a, b, c, ..] = values;
    let jump = |op| Word::Jump {
        op,
        skip: a,
        left: b,
        right: c,
    };
    let arith = |op| Word::Arith {
        op,
        to: a,
        value: b,
    };
    let arith_var = |op| Word::ArithVar {
        op,
        to: a,
        left: b,
        right: c,
    };
    match op {
        7 => jump(JumpOp::Jne),
        8 => jump(JumpOp::Jl),
        9 => jump(JumpOp::Jge),
        10 => jump(JumpOp::Je),
        11 => arith(ArithOp::Ld),
        12 => arith(ArithOp::Add),
        13 => arith(ArithOp::Sub),
        14 => arith_var(ArithVarOp::AddVar),
        15 => arith_var(ArithVarOp::SubVar),
        _ => later_word(values),
    }
}

// The word of the operation at the first value's place; Undefined where there is none.
pub fn word_of(values: Values) -> Word
    ensures { result ≡ word_of LP5523 values }
{
    let [op, a, b, c, d, ..] = values;
    match op {
        0 => Word::Rst,
        1 => Word::Ramp {
            prescale: a,
            time: b,
            dir: Direction::of_sign(c),
            count: d,
        },
        2 => Word::Wait {
            prescale: a,
            time: b,
        },
        3 => Word::Set { value: a },
        4 => Word::RampVar {
            prescale: a,
            dir: Direction::of_sign(b),
            time: c,
            count: d,
        },
        5 => Word::SetVar { from: a },
        6 => Word::BranchVar {
            loops: a,
            step: Step(b),
        },
        _ => variable_word(values),
    }
}
