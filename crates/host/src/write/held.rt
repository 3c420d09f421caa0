// Whether an engine holds an output.
ghost use Rattle.std.specs.Prelude.{◌≡◌, ◌<◌};
ghost use Rattle.machine.specs.Parts.{bit};
ghost use Rattle.machine.specs.Tick.{some};

use engine_core::has_bit;
use machine::Engine;

// Of D1 to D9: an output's row bit is its place.
pub(super) fn is_held(engines: [Engine; 3], k: u16) -> bool
    requires { k < 9 }
    ensures { result ≡ some (λ e. bit e.mask k) engines }
{
    engines.iter().any(|e| has_bit(e.mask, k as usize))
}
