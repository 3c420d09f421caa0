// What the chip is: its state, and what its calls answer. The rules are definitions in specs/, in
// document 01's order, except that definitions precede their use; the theorems about them are
// stated in specs/Theorems.antt.
#![tactic(auto)]

ghost use Rattle.std.specs.Prelude.{◌≡◌};
ghost use Rattle.machine.specs.Registers.{exec_of, exec_bits, mode_of, mode_bits};

use word::{Address, Direction, Step, WORDS};

// An engine's mode, as register 01h has it: 00, 01, 10, 11.
#[derive(Clone, Copy, Debug, PartialEq, Eq)]
pub enum Mode {
    Disabled,
    Load,
    Run,
    Halt,
}

impl Mode {
    // The mode of an engine's two bits in a byte for register 01h.
    // No `From<u8>`: it would not say that the number has two bits only.
    pub fn from_bits(bits: u8) -> Mode
        ensures { result ≡ mode_of bits }
    {
        match bits {
            0 => Mode::Disabled,
            1 => Mode::Load,
            2 => Mode::Run,
            _ => Mode::Halt,
        }
    }

    // By a match: the numbers are document 01's, not the order of the cases.
    pub fn bits(self) -> u8
        ensures { result ≡ mode_bits self }
    {
        match self {
            Mode::Disabled => 0,
            Mode::Load => 1,
            Mode::Run => 2,
            Mode::Halt => 3,
        }
    }
}

// An engine's run setting, as register 00h has it: 00, 01, 10, 11.
#[derive(Clone, Copy, Debug, PartialEq, Eq)]
pub enum Exec {
    Hold,
    SingleStep,
    Free,
    Once,
}

impl Exec {
    // The run setting of an engine's two bits in a byte for register 00h.
    // No `From<u8>`: it would not say that the number has two bits only.
    pub fn from_bits(bits: u8) -> Exec
        ensures { result ≡ exec_of bits }
    {
        match bits {
            0 => Exec::Hold,
            1 => Exec::SingleStep,
            2 => Exec::Free,
            _ => Exec::Once,
        }
    }

    // By a match: the numbers are document 01's, not the order of the cases.
    pub fn bits(self) -> u8
        ensures { result ≡ exec_bits self }
    {
        match self {
            Exec::Hold => 0,
            Exec::SingleStep => 1,
            Exec::Free => 2,
            Exec::Once => 3,
        }
    }
}

// The word in progress. `BetweenWords` is a case, and no `None`, so that each rule speaks of every engine.
#[derive(Clone, Copy, Debug, PartialEq, Eq)]
pub enum Progress {
    BetweenWords,
    Waiting {
        left: u16,
    },
    // `part`: beats of a part; `left`: beats left in this part; `parts`: parts left, this one included
    Ramping {
        dir: Direction,
        part: u16,
        left: u16,
        parts: u16,
    },
    Triggering {
        wait: u16,
        send: u16,
    },
}

impl Progress {
    ghost use Rattle.machine.specs.Turn.{mid_word};

    pub fn is_mid_word(self) -> bool
        ensures { result ≡ mid_word self }
    {
        !matches!(self, Progress::BetweenWords)
    }
}

// The pointers into the engine's mapping table.
#[derive(Clone, Copy, Debug, PartialEq, Eq)]
pub struct Pointers {
    pub top: Address,
    pub bottom: Address,
    pub index: Address,
}

#[derive(Clone, Copy, Debug, PartialEq, Eq)]
pub struct Engine {
    pub mode: Mode,
    pub exec: Exec,
    pub start: Address,
    pub pc: Step,
    pub a: u8,
    pub b: u8,
    // the outputs that it asks for: a mask of row bits, as a row of the mapping table is
    pub mask: u16,
    pub table: Pointers,
    // the pending triggers: a mask, as both fields of a trigger word are
    pub pending: u16,
    pub interrupt: bool,
    pub fault: bool,
    pub progress: Progress,
    // the branch counts, by the word's address
    pub loops: [u8; WORDS],
}

#[derive(Clone, Copy, Debug, PartialEq, Eq)]
pub struct Output {
    pub level: u8,
}

#[derive(Clone, Copy, Debug, PartialEq, Eq)]
pub struct Chip {
    pub enabled: bool,
    pub c: u8,
    pub d: u8,
    pub page: u8,
    pub memory: [u16; WORDS],
    // D1 to D9, then the GPO
    pub outputs: [Output; 10],
    pub engines: [Engine; 3],
}

// What a word does to the outputs that its engine holds. `Keep` is a case, so that one rule has all effects.
#[derive(Clone, Copy, Debug, PartialEq, Eq)]
pub enum Effect {
    Keep,
    Put { value: u8 },
    Move { dir: Direction },
}

// What one beat of a word gives: its engine afterwards, variable C, the effect on the held outputs,
// the triggers sent, and whether the word ended.
#[derive(Clone, Copy, Debug, PartialEq, Eq)]
pub struct BeatResult {
    pub own: Engine,
    pub c: u8,
    pub effect: Effect,
    pub send: u16,
    pub ended: bool,
}

// What an engine's turn gives: the chip, the triggers sent, and whether a word ended.
#[derive(Clone, Copy, Debug, PartialEq, Eq)]
pub struct TurnResult {
    pub chip: Chip,
    pub send: u16,
    pub ended: bool,
}

// What a beat gives: the chip, the pin output event, and which engines ended a word.
#[derive(Clone, Copy, Debug, PartialEq, Eq)]
pub struct TickResult {
    pub chip: Chip,
    pub pin: bool,
    pub ended: [bool; 3],
}

// Why a call of the host is refused. `error_number_of` in specs/Outcome.antt gives each case's number.
#[derive(Clone, Copy, Debug, PartialEq, Eq)]
pub enum CallError {
    EmptyBurst,
    UnlistedAddress,
    OutsideRegister,
    LoadRefused,
    StartInUse,
    MemoryInUse,
    OutputHeld,
    TooManyBeats,
}

// What a run gives: the chip, the beats done and the words finished by each engine.
#[derive(Clone, Copy, Debug, PartialEq, Eq)]
pub struct RunResult {
    pub chip: Chip,
    pub beats: u32,
    pub words: [u32; 3],
}

// What an interrupt read gives.
#[derive(Clone, Copy, Debug, PartialEq, Eq)]
pub struct Interrupts {
    pub chip: Chip,
    pub flags: [bool; 3],
}

// A host register; an engine, an output or a byte of the page is counted from 0. `Unlisted` is what stands
// at every other address, so that each rule of a byte and of a burst speaks of every address: an `Option`
// of a register would ask them each for its `None` too.
#[derive(Clone, Copy, Debug, PartialEq, Eq)]
pub enum Register {
    Control,
    Modes,
    OutputLevel(u16),
    VariableD,
    Start(u16),
    Page,
    Memory(u16),
    Unlisted,
}
