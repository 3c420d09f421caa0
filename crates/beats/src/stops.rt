// Whether a beat changes nothing.
ghost use Rattle.std.specs.Prelude.{◌≡◌};
ghost use Rattle.machine.specs.Tick.{stopped};

use engine_core::any_loads;
use machine::Chip;

#[tactic(auto, unfolding(machine::specs::Tick::stopped))]
pub(super) fn stopped(chip: Chip) -> bool
    ensures { result ≡ stopped chip }
{
    !chip.enabled || any_loads(&chip.engines)
}
