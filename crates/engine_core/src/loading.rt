// Load mode stops the beats of the whole chip.
ghost use Rattle.std.specs.Prelude.{◌≡◌};
ghost use Rattle.machine.specs.Tick.{is_load, loads, some};

use machine::{Engine, Mode};

pub fn is_load(mode: Mode) -> bool
    ensures { result ≡ is_load mode }
{
    matches!(mode, Mode::Load)
}

// Whether an engine is in load mode.
pub fn any_loads(engines: &[Engine; 3]) -> bool
    ensures { result ≡ some loads engines.now }
{
    engines.iter().any(|e| is_load(e.mode))
}
