// What a byte that is not refused changes.
ghost use Rattle.std.specs.Prelude.{◌≡◌, ◌<◌};
ghost use Rattle.word.specs.Profile.{LP5523};
ghost use Rattle.machine.specs.declared.Register.TheVariants.{Control, Modes, OutputLevel, Start, Memory};
ghost use Rattle.machine.specs.Stored.{with_byte, stored};
ghost use Rattle.host.specs.internal.Places.{Exists};

use crate::write::states::{set_execs, set_modes};
use engine_core::has_bit;
use machine::{Chip, Output, Register};
use word::{Address, WORDS};

fn store_control(mut chip: Chip, byte: u8) -> Chip
    ensures { result ≡ stored LP5523 Control byte chip }
{
    chip.engines = set_execs(chip.engines, byte);
    chip.enabled = has_bit(byte as u16, 6);
    chip
}

fn store_modes(mut chip: Chip, byte: u8) -> Chip
    ensures { result ≡ stored LP5523 Modes byte chip }
{
    chip.engines = set_modes(chip.engines, byte);
    chip
}

fn store_output(mut chip: Chip, k: u16, byte: u8) -> Chip
    requires { k < 9 }
    ensures { result ≡ stored LP5523 (OutputLevel k) byte chip }
{
    chip.outputs[k as usize] = Output { level: byte };
    chip
}

fn store_start(mut chip: Chip, i: u16, byte: u8) -> Chip
    requires { i < 3 }
    ensures { result ≡ stored LP5523 (Start i) byte chip }
{
    chip.engines[i as usize].start = Address(byte as u16);
    chip
}

// The high byte of a word comes first.
fn with_byte(k: u16, byte: u8, word: u16) -> u16
    ensures { result ≡ with_byte k byte word }
{
    let byte = byte as u16;
    if k % 2 == 0 {
        return 256 * byte + word % 256;
    }
    256 * (word / 256) + byte
}

// On a page above 5 there is no word to change.
fn store_memory(mut chip: Chip, k: u16, byte: u8) -> Chip
    requires { k < 32 }
    ensures { result ≡ stored LP5523 (Memory k) byte chip }
{
    let at = 16 * chip.page as usize + (k / 2) as usize;
    if at < WORDS {
        chip.memory[at] = with_byte(k, byte, chip.memory[at]);
    }
    chip
}

pub(super) fn store(mut chip: Chip, register: Register, byte: u8) -> Chip
    requires { Exists register }
    ensures { result ≡ stored LP5523 register byte chip }
{
    match register {
        Register::Control => store_control(chip, byte),
        Register::Modes => store_modes(chip, byte),
        Register::OutputLevel(k) => store_output(chip, k, byte),
        Register::VariableD => {
            chip.d = byte;
            chip
        }
        Register::Start(i) => store_start(chip, i, byte),
        Register::Page => {
            chip.page = byte;
            chip
        }
        Register::Memory(k) => store_memory(chip, k, byte),
        Register::Unlisted => chip,
    }
}
