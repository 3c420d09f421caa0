// A beat of the chip.
ghost use Rattle.std.specs.Prelude.{map, ◌==◌, ◌≡◌};
ghost use Rattle.word.specs.Profile.{LP5523};
ghost use Rattle.machine.specs.Tick.{tick};

use beats::run_beats;
use engine::Span;
use machine::{Chip, TickResult};

// An engine that finished a word in one beat counts one.
fn ended_of(words: [u32; 3]) -> [bool; 3]
    ensures { result ≡ map (λ n. n == 1) words }
{
    words.map(|n| n == 1)
}

// One beat, with or without a pulse at the pin.
pub fn tick(chip: Chip, pulse: bool) -> TickResult
    ensures { result ≡ tick LP5523 pulse chip }
{
    let Span {
        after,
        pin,
        words,
        ..
    } = run_beats(chip, pulse, 1);
    TickResult {
        chip: after,
        pin,
        ended: ended_of(words),
    }
}
