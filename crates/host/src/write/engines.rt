// What refusals 4, 5 and 6 ask of the engines.
ghost use Rattle.std.specs.Prelude.{◌&&◌, ◌≡◌};
ghost use Rattle.std.specs.List.{list_any, zip};
ghost use Rattle.machine.specs.Turn.{mid_word};
ghost use Rattle.machine.specs.Tick.{some, is_load};
ghost use Rattle.machine.specs.Registers.{mode_of};
ghost use Rattle.machine.specs.Judged.{in_use, load_refused, memory_in_use};
ghost use Rattle.host.specs.internal.Asked.{refuses};

use crate::write::fields::pairs_of;
use engine_core::{any_loads, is_load};
use machine::{Engine, Mode};

// In run or halt.
pub(super) fn in_use(mode: Mode) -> bool
    ensures { result ≡ in_use mode }
{
    matches!(mode, Mode::Run | Mode::Halt)
}

// Refusal 4 of an engine, by its two bits.
fn refuses_load(e: Engine, bits: u8) -> bool
    ensures { result ≡ (is_load (mode_of bits) && in_use e.mode) }
{
    is_load(Mode::from_bits(bits)) && in_use(e.mode)
}

fn any_refuses_load(engines: &[Engine], pairs: &[u8]) -> bool
    ensures { result ≡ list_any refuses (zip engines.now pairs.now) }
{
    engines
        .iter()
        .zip(pairs.iter())
        .any(|(e, bits)| refuses_load(*e, *bits))
}

// Refusal 4.
pub(super) fn load_refused(engines: [Engine; 3], byte: u8) -> bool
    ensures { result ≡ load_refused byte 0 engines }
{
    any_refuses_load(&engines, &pairs_of(byte))
}

fn any_mid_word(engines: [Engine; 3]) -> bool
    ensures { result ≡ some (λ e. mid_word e.progress) engines }
{
    engines.iter().any(|e| e.progress.is_mid_word())
}

// Refusal 6.
pub(super) fn memory_in_use(engines: [Engine; 3]) -> bool
    ensures { result ≡ memory_in_use engines }
{
    !any_loads(&engines) || any_mid_word(engines)
}
