// A run of beats.
ghost use Rattle.std.specs.Prelude.{◌≡◌};
ghost use Rattle.word.specs.Profile.{LP5523};
ghost use Rattle.machine.specs.Reports.{run_gives, run_report_of};
ghost use Rattle.machine.specs.Run.{run_of};

use beats::run_beats;
use engine::Span;
use machine::{CallError, Chip, RunResult};

// The most beats that a run may take.
pub const MOST_BEATS: u32 = 1_000_000;

// At most so many beats, without pulses; it stops before a beat if all is quiet.
pub fn run(chip: Chip, beats: u32) -> Result<RunResult, CallError>
    ensures { run_report_of (run_gives LP5523 chip result) ≡ run_report_of (run_of LP5523 beats chip) }
{
    if beats > MOST_BEATS {
        return Err(CallError::TooManyBeats);
    }
    let Span {
        after,
        beats,
        words,
        ..
    } = run_beats(chip, false, beats);
    Ok(RunResult {
        chip: after,
        beats,
        words,
    })
}
