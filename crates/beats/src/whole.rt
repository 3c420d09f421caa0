// At most so many beats of a chip.
ghost use Rattle.std.specs.Prelude.{◌≡◌};
ghost use Rattle.beats.specs.Beats.{beats_of};

use super::split::{chip_of, cores_of, counts_of, levels_of};
use super::stops::stopped;
use engine::{Span, take_beats};
use machine::Chip;

// A pulse at the pin, if given, and then at most so many beats; it stops before a beat if all is
// quiet. A chip that is stopped takes no pulse, and no beat changes whether it is.
pub fn run_beats(chip: Chip, pulse: bool, most: u32) -> Span<Chip>
    ensures { result ≡ beats_of pulse most chip }
{
    if stopped(chip) {
        return Span {
            after: chip,
            pin: false,
            beats: 0,
            words: [0; 3],
        };
    }
    let mut levels = levels_of(chip);
    let mut counts = counts_of(chip);
    let Span {
        after,
        pin,
        beats,
        words,
    } = take_beats(
        cores_of(chip, pulse),
        chip.d,
        &chip.memory,
        &mut levels,
        &mut counts,
        most,
    );
    Span {
        after: chip_of(chip, after, levels, counts),
        pin,
        beats,
        words,
    }
}
