// What registers 00h and 01h do to the engines.
ghost use Rattle.std.specs.Prelude.{false, ◌≡◌};
ghost use Rattle.word.specs.Profile.{LP5523};
ghost use Rattle.word.specs.Steps.{step_at};
ghost use Rattle.machine.specs.Parts.{each, zero_counts, with_exec, with_pc, with_mask, with_pending, with_fault, with_loops};
ghost use Rattle.machine.specs.Registers.{pair_of, exec_of, mode_of};
ghost use Rattle.machine.specs.Stored.{prepared, enters};

use crate::write::fields::pairs_of;
use machine::{Engine, Exec, Mode, Progress};
use std::array;
use word::{Step, WORDS};

// What going from disabled to load clears.
fn cleared(mut e: Engine) -> Engine
    ensures { result ≡ with_pc (step_at 0) (with_loops (zero_counts LP5523) (with_pending 0 (with_fault false (with_mask 0 e)))) }
{
    e.pc = Step(0);
    e.loops = [0; WORDS];
    e.pending = 0;
    e.fault = false;
    e.mask = 0;
    e
}

fn prepared(e: Engine) -> Engine
    ensures { result ≡ prepared LP5523 e.mode e }
{
    match e.mode {
        Mode::Disabled => cleared(e),
        _ => e,
    }
}

// Disabling and halting drop the word in progress.
fn entered(mut e: Engine, mode: Mode) -> Engine
    ensures { result ≡ enters LP5523 mode e }
{
    match mode {
        Mode::Disabled | Mode::Halt => e.progress = Progress::BetweenWords,
        Mode::Load => e = prepared(e),
        Mode::Run => {}
    }
    e.mode = mode;
    e
}

fn with_exec(mut e: Engine, exec: Exec) -> Engine
    ensures { result ≡ with_exec exec e }
{
    e.exec = exec;
    e
}

// The run settings, from register 00h.
pub(super) fn set_execs(engines: [Engine; 3], byte: u8) -> [Engine; 3]
    ensures { result ≡ each (λ i e. with_exec (exec_of (pair_of byte i)) e) 0 engines }
{
    let pairs = pairs_of(byte);
    array::from_fn(|i| with_exec(engines[i], Exec::from_bits(pairs[i])))
}

// The modes, from register 01h.
pub(super) fn set_modes(engines: [Engine; 3], byte: u8) -> [Engine; 3]
    ensures { result ≡ each (λ i e. enters LP5523 (mode_of (pair_of byte i)) e) 0 engines }
{
    let pairs = pairs_of(byte);
    array::from_fn(|i| entered(engines[i], Mode::from_bits(pairs[i])))
}
