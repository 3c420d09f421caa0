// A new chip is all zero.
ghost use Rattle.std.specs.Prelude.{◌≡◌};
ghost use Rattle.word.specs.Profile.{LP5523};
ghost use Rattle.machine.specs.Parts.{zero_engine};
ghost use Rattle.machine.specs.NewChip.{new_chip};

use machine::{Chip, Engine, Exec, Mode, Output, Pointers, Progress};
use word::{Address, Step, WORDS};

fn zero_engine() -> Engine
    ensures { result ≡ zero_engine LP5523 }
{
    Engine {
        mode: Mode::Disabled,
        exec: Exec::Hold,
        start: Address(0),
        pc: Step(0),
        a: 0,
        b: 0,
        mask: 0,
        table: Pointers {
            top: Address(0),
            bottom: Address(0),
            index: Address(0),
        },
        pending: 0,
        interrupt: false,
        fault: false,
        progress: Progress::BetweenWords,
        loops: [0; WORDS],
    }
}

pub fn new_chip() -> Chip
    ensures { result ≡ new_chip LP5523 }
{
    Chip {
        enabled: false,
        c: 0,
        d: 0,
        page: 0,
        memory: [0; WORDS],
        outputs: [Output { level: 0 }; 10],
        engines: [zero_engine(); 3],
    }
}
