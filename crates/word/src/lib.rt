// The instruction words of the LP5523: what a word may say, and the answers about it.
// The rules are document 01's, section "Words"; specs/Table.antt is its table.
#![tactic(auto)]

ghost use Rattle.std.specs.Prelude.{◌≡◌, cond, eqb};
ghost use Rattle.word.specs.declared.Direction.TheVariants.{Up, Down};

// A step counts from the engine's start. The target of a branch is a step.
#[derive(Clone, Copy, Debug, PartialEq, Eq)]
pub struct Step(pub u16);

// An address counts from word 0 of the program memory.
#[derive(Clone, Copy, Debug, PartialEq, Eq, PartialOrd, Ord)]
pub struct Address(pub u16);

// The words of the program memory.
pub const WORDS: usize = 96;

#[derive(Clone, Copy, Debug, PartialEq, Eq)]
pub enum Direction {
    Up,
    Down,
}

impl Direction {
    // The direction of a sign: 0 is up, any other is down.
    // No `From`: it would not say that the number is a sign.
    pub fn of_sign(sign: u16) -> Direction
        ensures { result ≡ cond (eqb sign 0) Up Down }
    {
        if sign == 0 {
            Direction::Up
        } else {
            Direction::Down
        }
    }
}

// The operations that share a line of document 01's table, under their names in a sheet.
#[derive(Clone, Copy, Debug, PartialEq, Eq)]
pub enum JumpOp {
    Jne,
    Jl,
    Jge,
    Je,
}

#[derive(Clone, Copy, Debug, PartialEq, Eq)]
pub enum ArithOp {
    Ld,
    Add,
    Sub,
}

#[derive(Clone, Copy, Debug, PartialEq, Eq)]
pub enum ArithVarOp {
    AddVar,
    SubVar,
}

#[derive(Clone, Copy, Debug, PartialEq, Eq)]
pub enum MuxAtOp {
    MuxMapStart,
    MuxLdEnd,
    MuxLdStart,
    MuxLdAddr,
    MuxMapAddr,
}

#[derive(Clone, Copy, Debug, PartialEq, Eq)]
pub enum MuxMoveOp {
    MuxMapNext,
    MuxLdNext,
    MuxMapPrev,
    MuxLdPrev,
}

// An instruction word: a case for each line of document 01's table, its operands under the keys of
// its sheet line. An operand is wide enough to lie outside its field, so that the encoder can refuse
// it. Variables are numbers: A is 0, D is 3.
#[derive(Clone, Copy, Debug, PartialEq, Eq)]
pub enum Word {
    Rst,
    Ramp {
        prescale: u16,
        time: u16,
        dir: Direction,
        count: u16,
    },
    Wait {
        prescale: u16,
        time: u16,
    },
    Set {
        value: u16,
    },
    RampVar {
        prescale: u16,
        dir: Direction,
        time: u16,
        count: u16,
    },
    SetVar {
        from: u16,
    },
    BranchVar {
        loops: u16,
        step: Step,
    },
    Jump {
        op: JumpOp,
        skip: u16,
        left: u16,
        right: u16,
    },
    Arith {
        op: ArithOp,
        to: u16,
        value: u16,
    },
    ArithVar {
        op: ArithVarOp,
        to: u16,
        left: u16,
        right: u16,
    },
    MuxAt {
        op: MuxAtOp,
        address: Address,
    },
    MuxClr,
    MuxSel {
        output: u16,
    },
    MuxMove {
        op: MuxMoveOp,
    },
    Branch {
        loops: u16,
        step: Step,
    },
    End {
        int: u16,
        reset: u16,
    },
    Int,
    Trigger {
        wait: u16,
        send: u16,
    },
    // a case, as document 01 names it: every 16 bits decode to a word
    Undefined,
}

// Why a word has no code. `answer_of` in specs/Answer.antt gives each case's number in document 01.
#[derive(Clone, Copy, Debug, PartialEq, Eq)]
pub enum EncodeError {
    OutsideField,
    UndefinedWord,
}

// Where a word lets the engine go on.
#[derive(Clone, Copy, Debug, PartialEq, Eq)]
pub enum Flow {
    // the next word
    Next,
    // the engine's first word
    Restart,
    // nowhere: the engine is held, at its first word if reset is 1
    Stop {
        reset: u16,
    },
    // the step, loops times, then the next word; the step for ever if loops is 0
    Loop {
        loops: u16,
        step: Step,
    },
    // the same, with the loops read from a variable
    LoopVar {
        loops: u16,
        step: Step,
    },
    // past skip more words where the jump's test holds of left and right, else the next word
    Skip {
        op: JumpOp,
        skip: u16,
        left: u16,
        right: u16,
    },
    // there is no such word; a case, so that each rule of a flow speaks of every word
    Fault,
}

// What a word does to the pointers of the engine's mapping table.
#[derive(Clone, Copy, Debug, PartialEq, Eq)]
pub enum TableUse {
    // a case, so that each rule of the table speaks of every word
    Nothing,
    // sets top and index
    StartAt(Address),
    // sets bottom
    EndAt(Address),
    // sets index
    RowAt(Address),
    // moves index to the next row, or from the bottom to the top
    Forward,
    // moves index to the row before, or from the top to the bottom
    Backward,
}
