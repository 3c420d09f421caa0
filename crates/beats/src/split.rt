// A chip taken into the parts that its beats work on, and put together again.
ghost use Rattle.std.specs.Prelude.{map, ◌≡◌};
ghost use Rattle.machine.specs.Triggers.{pulsed};
ghost use Rattle.machine.specs.Tick.{with_pulse};
ghost use Rattle.engine_core.specs.Core.{engine_of};
ghost use Rattle.engine.specs.Parts.{output_of, chip_of};
ghost use Rattle.beats.specs.internal.Parts.{level_of, loops_of, fixed_of, levels_of, counts_of};

use engine::Cores;
use engine_core::{EngineCore, PIN};
use machine::{Chip, Engine, Output};
use std::array;
use word::WORDS;

pub(super) fn levels_of(chip: Chip) -> [u8; 10]
    ensures { result ≡ levels_of chip }
{
    chip.outputs.map(|output| output.level)
}

fn outputs_of(levels: [u8; 10]) -> [Output; 10]
    ensures { result ≡ map output_of levels }
{
    levels.map(|level| Output { level })
}

// A pulse at the pin, if given, becomes pending.
fn pulsed(e: Engine, pulse: bool) -> EngineCore
    ensures { engine_of result e.loops ≡ pulsed pulse 0 e }
{
    EngineCore::from(e).with_bit(1 << PIN, pulse)
}

// The cores of a chip, with a pulse at the pin, if given.
pub(super) fn cores_of(chip: Chip, pulse: bool) -> Cores
    ensures { chip_of (fixed_of chip) result (levels_of chip) (counts_of chip) ≡ with_pulse pulse chip }
{
    Cores {
        c: chip.c,
        engines: chip.engines.map(|e| pulsed(e, pulse)),
    }
}

fn loops_of(e: Engine) -> [u8; WORDS]
    ensures { result ≡ loops_of e }
{
    e.loops
}

// The engines' branch counts.
pub(super) fn counts_of(chip: Chip) -> [[u8; WORDS]; 3]
    ensures { result ≡ counts_of chip }
{
    chip.engines.map(loops_of)
}

// The chip with what its beats changed.
pub(super) fn chip_of(mut chip: Chip, k: Cores, levels: [u8; 10], counts: [[u8; WORDS]; 3]) -> Chip
    ensures { result ≡ chip_of (fixed_of chip) k levels counts }
{
    chip.c = k.c;
    chip.outputs = outputs_of(levels);
    chip.engines = array::from_fn(|i| k.engines[i].with_counts(counts[i]));
    chip
}
