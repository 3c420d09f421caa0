// The outputs' levels after a word's beat.
ghost use Rattle.std.specs.Prelude.{◌≡◌, ℕ, ◌<◌, not, ◌&&◌, bit_and, bit_xor};
ghost use Rattle.word.specs.Profile.{LP5523};
ghost use Rattle.machine.specs.Parts.{bit};
ghost use Rattle.machine.specs.Outputs.{row_bit, moved, affected};
ghost use Rattle.engine.specs.Parts.{output_of};
ghost use Rattle.engine.specs.internal.Levels.{asked_before, level_after, levels_after};

use engine_core::{EngineCore, has_bit};
use machine::Effect;
use word::Direction;

// The output that is the GPO, and its row bit. The row bits of the others are their numbers.
const GPO: usize = 9;

const GPO_BIT: usize = 15;

// The bits of a mask without those of another. No `mask & !other`: `!` is proved to be 65535 minus a mask.
fn without(mask: u16, other: u16) -> u16
    ensures { result ≡ bit_xor mask (bit_and mask other) }
{
    mask ^ (mask & other)
}

// The row bits of the outputs that engine i holds: those of its mask without those of the engines before
// it.
pub(super) fn held_bits(cores: &[EngineCore; 3], mask: u16, i: usize) -> u16
    requires { i < 3 }
    ensures { (j : ℕ) → bit result j ≡ (bit mask j && not (asked_before i cores.now j)) }
{
    cores[..i]
        .iter()
        .fold(mask, |left, core| without(left, core.mask))
}

fn moved(dir: Direction, level: u8) -> u8
    ensures { result ≡ moved dir level }
{
    match dir {
        Direction::Up => level.saturating_add(1),
        Direction::Down => level.saturating_sub(1),
    }
}

fn affected(effect: Effect, level: u8) -> u8
    ensures { result ≡ (affected effect (output_of level)).level }
{
    match effect {
        Effect::Keep => level,
        Effect::Put { value } => value,
        Effect::Move { dir } => moved(dir, level),
    }
}

// Whether the row bit of output k is set.
fn has_output(held: u16, k: usize) -> bool
    requires { k < 10 }
    ensures { result ≡ bit held (row_bit LP5523 k) }
{
    has_bit(held, if k == GPO { GPO_BIT } else { k })
}

fn level_after(held: u16, effect: Effect, k: usize, level: u8) -> u8
    requires { k < 10 }
    ensures { result ≡ level_after held effect k level }
{
    if has_output(held, k) {
        affected(effect, level)
    } else {
        level
    }
}

// A beat that keeps the outputs is tested first: most beats do.
pub(super) fn with_effect(levels: &mut [u8; 10], held: u16, effect: Effect)
    ensures { levels.new ≡ levels_after held effect levels.old }
{
    if let Effect::Keep = effect {
        return;
    }
    for (k, level) in levels.iter_mut().enumerate() {
        *level = level_after(held, effect, k, *level);
    }
}
