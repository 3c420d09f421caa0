// Beats of a word in progress in which it doesn't end: they change no more of an engine than that word, and
// are tested first for speed.
ghost use Rattle.std.specs.Prelude.{◌≡◌, true, []};
ghost use Rattle.engine_core.specs.Core.{engine_of};
ghost use Rattle.engine.specs.internal.Lasting.{continues, progressed, effect_of, outlasts};

use super::pending::all_pending;
use engine_core::EngineCore;
use machine::{Effect, Mode, Progress};

fn continues(k: EngineCore) -> bool
    ensures { result ≡ continues k.pending k.progress }
{
    match k.progress {
        Progress::BetweenWords => false,
        Progress::Waiting { left } => left > 1,
        Progress::Ramping { left, parts, .. } => left > 1 || parts > 1,
        Progress::Triggering { wait, .. } => !all_pending(k.pending, wait),
    }
}

pub(super) fn outlasts(k: EngineCore) -> bool
    ensures { result ≡ outlasts (engine_of k []) }
{
    matches!(k.mode, Mode::Run) && continues(k)
}

// The word in progress after such a beat.
pub(super) fn progressed(k: EngineCore) -> Progress
    requires { continues k.pending k.progress ≡ true }
    ensures { result ≡ progressed k.progress }
{
    match k.progress {
        Progress::BetweenWords => Progress::BetweenWords,
        Progress::Waiting { left } => Progress::Waiting { left: left - 1 },
        Progress::Ramping {
            dir,
            part,
            left,
            parts,
        } => if left > 1 {
            Progress::Ramping {
                dir,
                part,
                left: left - 1,
                parts,
            }
        } else {
            Progress::Ramping {
                dir,
                part,
                left: part,
                parts: parts - 1,
            }
        },
        Progress::Triggering { wait, send } => Progress::Triggering { wait, send },
    }
}

// Its effect on the outputs that the engine holds.
pub(super) fn effect_of(progress: Progress) -> Effect
    ensures { result ≡ effect_of progress }
{
    match progress {
        Progress::Ramping { dir, left, .. } => if left > 1 {
            Effect::Keep
        } else {
            Effect::Move { dir }
        },
        Progress::BetweenWords | Progress::Waiting { .. } | Progress::Triggering { .. } => {
            Effect::Keep
        }
    }
}
