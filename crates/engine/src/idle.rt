// Beats in which the engines do no more than wait: nearly all, where lights stay on long enough to be
// seen. They are tested first, since they need no engine's turn.
ghost use Rattle.std.specs.Prelude.{◌≡◌, [], map};
ghost use Rattle.std.specs.List.{list_all, list_any};
ghost use Rattle.engine_core.specs.Core.{engine_of};
ghost use Rattle.machine.specs.Turn.{acts};
ghost use Rattle.engine.specs.internal.Idle.{left_of, wait_left, idles, core_idled};

use engine_core::EngineCore;
use machine::Progress;

// The beats of a wait that are left after this one, or 0, and no Option: a wait that ends and no wait are
// treated alike.
fn left_of(progress: Progress) -> u16
    ensures { result ≡ left_of progress }
{
    match progress {
        Progress::Waiting { left } => left.saturating_sub(1),
        Progress::BetweenWords | Progress::Ramping { .. } | Progress::Triggering { .. } => 0,
    }
}

fn wait_left(k: EngineCore) -> u16
    ensures { result ≡ wait_left (engine_of k []) }
{
    if k.acts() { left_of(k.progress) } else { 0 }
}

fn idles(k: EngineCore) -> bool
    ensures { result ≡ idles (engine_of k []) }
{
    !k.acts() || wait_left(k) > 0
}

fn idled(mut k: EngineCore) -> EngineCore
    ensures { result ≡ core_idled k }
{
    let left = wait_left(k);
    if left > 0 {
        k.progress = Progress::Waiting { left };
    }
    k
}

pub(super) fn all_idle(cores: &[EngineCore; 3]) -> bool
    ensures { result ≡ list_all (λ k. idles (engine_of k [])) cores.now }
{
    cores.iter().all(|core| idles(*core))
}

pub(super) fn any_acts(cores: &[EngineCore; 3]) -> bool
    ensures { result ≡ list_any (λ k. acts (engine_of k [])) cores.now }
{
    cores.iter().any(
        |core|
            ensures { result ≡ acts (engine_of core.now []) }
        { core.acts() },
    )
}

// The engines after such a beat.
pub(super) fn idle(cores: &mut [EngineCore; 3])
    ensures { cores.new ≡ map core_idled cores.old }
{
    for core in cores.iter_mut() {
        *core = idled(*core);
    }
}
