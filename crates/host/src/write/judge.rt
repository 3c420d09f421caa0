// What a byte for a register answers: the refusals 3 to 7, the lowest first. Register's numbers are bare in its
// public form, so their limits stand in `requires`.
ghost use Rattle.std.specs.Prelude.{Ok, Err, cond, ◌≡◌, ◌<◌, leb, eqb, get_or};
ghost use Rattle.word.specs.Profile.{LP5523};
ghost use Rattle.machine.specs.declared.CallError.TheVariants.{OutsideRegister, LoadRefused, StartInUse, MemoryInUse, OutputHeld};
ghost use Rattle.machine.specs.Parts.{bit, zero_engine};
ghost use Rattle.machine.specs.Outputs.{holder};
ghost use Rattle.machine.specs.Judged.{in_use, load_refused, memory_in_use, judged};
ghost use Rattle.host.specs.internal.Places.{Exists};

use crate::write::engines::{in_use, load_refused, memory_in_use};
use crate::write::held::is_held;
use engine_core::has_bit;
use machine::{CallError, Chip, Engine, Register};
use word::WORDS;

// 00h: bit 7 is reserved.
fn judge_control(byte: u8) -> Result<(), CallError>
    ensures { result ≡ cond (bit byte 7) (Err OutsideRegister) (Ok tt) }
{
    if has_bit(byte as u16, 7) {
        return Err(CallError::OutsideRegister);
    }
    Ok(())
}

// 01h: bits 7 and 6 are reserved.
fn judge_modes(engines: [Engine; 3], byte: u8) -> Result<(), CallError>
    ensures { result ≡ cond (leb 64 byte) (Err OutsideRegister) (cond (load_refused byte 0 engines) (Err LoadRefused) (Ok tt)) }
{
    if byte >= 64 {
        return Err(CallError::OutsideRegister);
    }
    if load_refused(engines, byte) {
        return Err(CallError::LoadRefused);
    }
    Ok(())
}

#[tactic(auto, using(crate::proofs::Holders::held_by_none))]
fn judge_output(engines: [Engine; 3], k: u16) -> Result<(), CallError>
    requires { k < 9 }
    ensures { result ≡ cond (eqb (holder LP5523 engines k) 0) (Ok tt) (Err OutputHeld) }
{
    if is_held(engines, k) {
        return Err(CallError::OutputHeld);
    }
    Ok(())
}

fn judge_start(engines: [Engine; 3], i: u16, byte: u8) -> Result<(), CallError>
    requires { i < 3 }
    ensures { result ≡ cond (leb 96 byte) (Err OutsideRegister) (cond (in_use (get_or engines i (zero_engine LP5523)).mode) (Err StartInUse) (Ok tt)) }
{
    if byte as usize >= WORDS {
        return Err(CallError::OutsideRegister);
    }
    if in_use(engines[i as usize].mode) {
        return Err(CallError::StartInUse);
    }
    Ok(())
}

fn judge_page(byte: u8) -> Result<(), CallError>
    ensures { result ≡ cond (leb 6 byte) (Err OutsideRegister) (Ok tt) }
{
    if byte >= 6 {
        return Err(CallError::OutsideRegister);
    }
    Ok(())
}

fn judge_memory(engines: [Engine; 3]) -> Result<(), CallError>
    ensures { result ≡ cond (memory_in_use engines) (Err MemoryInUse) (Ok tt) }
{
    if memory_in_use(engines) {
        return Err(CallError::MemoryInUse);
    }
    Ok(())
}

pub(super) fn judge(chip: Chip, register: Register, byte: u8) -> Result<(), CallError>
    requires { Exists register }
    ensures { result ≡ judged LP5523 register byte chip }
{
    let engines = chip.engines;
    match register {
        Register::Control => judge_control(byte),
        Register::Modes => judge_modes(engines, byte),
        Register::OutputLevel(k) => judge_output(engines, k),
        Register::VariableD => Ok(()),
        Register::Start(i) => judge_start(engines, i, byte),
        Register::Page => judge_page(byte),
        Register::Memory(_) => judge_memory(engines),
        Register::Unlisted => Err(CallError::UnlistedAddress),
    }
}
