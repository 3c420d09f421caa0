// The grammar as tables, in document 01's order.
ghost use Rattle.std.specs.Prelude.{◌≡◌, IsTrue, map};
ghost use Rattle.std.specs.List.{list_all};
ghost use Rattle.word.specs.Profile.{LP5523};
ghost use Rattle.grammar.specs.declared.OpLine.{OpLine};
ghost use Rattle.grammar.specs.Grammar as spec;
ghost use Rattle.grammar.specs.Entries.{form_of, fits};

use crate::{Kind, OpLine, Pair, Range};

// yes stands for 0, no for 1.
pub const ANSWERS: &[&[u8]] = &[b"yes", b"no"];

// The kinds of values.
macro_rules! numbers {
    ($($least:literal to $most:literal),+) => {
        Kind::Number(&[$(Range { least: $least, most: $most }),+])
    };
}

const FLAG: Kind = numbers!(0 to 1);

const TIME: Kind = numbers!(1 to 31);

const BYTE: Kind = numbers!(0 to 255);

const SKIP: Kind = numbers!(0 to 31);

const LOOPS: Kind = numbers!(0 to 63);

const STEP: Kind = numbers!(0 to 127);

const ADDRESS: Kind = numbers!(0 to 95);

const OUTPUT: Kind = numbers!(1 to 9, 16 to 16);

const TRIGGERS: Kind = numbers!(0 to 7, 32 to 39);

const DIRECTION: Kind = Kind::Keyword(&[b"up", b"down"]);

const VARIABLE: Kind = Kind::Keyword(&[b"A", b"B", b"C", b"D"]);

const TARGET: Kind = Kind::Keyword(&[b"A", b"B", b"C"]);

const DECISION: Kind = Kind::Decision;

// The pairs `key=value` of a form.
macro_rules! form {
    ($($key:literal $kind:ident),*) => {
        &[$(Pair { key: $key, kind: $kind }),*]
    };
}

macro_rules! op {
    ($name:literal $($key:literal $kind:ident),*) => {
        OpLine { name: $name, form: form!($($key $kind),*) }
    };
}

const OPS: &[OpLine] = &[
    op!(b"rst"),
    op!(b"ramp" b"prescale" FLAG, b"time" TIME, b"dir" DIRECTION, b"count" BYTE),
    op!(b"wait" b"prescale" FLAG, b"time" TIME),
    op!(b"set" b"value" BYTE),
    op!(b"ramp-var" b"prescale" FLAG, b"dir" DIRECTION, b"time" VARIABLE, b"count" VARIABLE),
    op!(b"set-var" b"from" VARIABLE),
    op!(b"branch-var" b"loops" VARIABLE, b"step" STEP),
    op!(b"jne" b"skip" SKIP, b"left" VARIABLE, b"right" VARIABLE),
    op!(b"jl" b"skip" SKIP, b"left" VARIABLE, b"right" VARIABLE),
    op!(b"jge" b"skip" SKIP, b"left" VARIABLE, b"right" VARIABLE),
    op!(b"je" b"skip" SKIP, b"left" VARIABLE, b"right" VARIABLE),
    op!(b"ld" b"to" TARGET, b"value" BYTE),
    op!(b"add" b"to" TARGET, b"value" BYTE),
    op!(b"sub" b"to" TARGET, b"value" BYTE),
    op!(b"add-var" b"to" TARGET, b"left" VARIABLE, b"right" VARIABLE),
    op!(b"sub-var" b"to" TARGET, b"left" VARIABLE, b"right" VARIABLE),
    op!(b"mux-map-start" b"address" ADDRESS),
    op!(b"mux-ld-end" b"address" ADDRESS),
    op!(b"mux-ld-start" b"address" ADDRESS),
    op!(b"mux-ld-addr" b"address" ADDRESS),
    op!(b"mux-map-addr" b"address" ADDRESS),
    op!(b"mux-clr"),
    op!(b"mux-sel" b"output" OUTPUT),
    op!(b"mux-map-next"),
    op!(b"mux-ld-next"),
    op!(b"mux-map-prev"),
    op!(b"mux-ld-prev"),
    op!(b"branch" b"loops" LOOPS, b"step" STEP),
    op!(b"end" b"int" FLAG, b"reset" FLAG),
    op!(b"int"),
    op!(b"trigger" b"wait" TRIGGERS, b"send" TRIGGERS),
];

// What follows `engine=` in a plan line.
pub const PLAN: &[Pair] = form!(
    b"use" DECISION, b"first" ADDRESS, b"last" ADDRESS,
    b"table" DECISION, b"top" ADDRESS, b"bottom" ADDRESS
);

pub const OP_COUNT: usize = OPS.len();

// The lines of the operations. A function has a contract, which a constant has not.
#[tactic(auto, unfolding(crate::specs::Grammar::op_names))]
pub fn op_lines() -> &'static [OpLine]
    ensures names { map (λ (o : OpLine). o.name.now) result.now ≡ spec.op_names LP5523 }
    ensures forms { map (λ (o : OpLine). form_of o.form.now) result.now ≡ map (λ (l : spec.OpLine). l.form) (spec.op_lines LP5523) }
    ensures room { IsTrue (list_all (λ (o : OpLine). fits o.form.now) result.now) }
{
    OPS
}
