// The steps from mark to mark: 1, 2 or 5 times a power of ten of moments.
ghost use Rattle.std.specs.Prelude.{◌*◌, ◌<◌, ◌≤◌};

#[derive(Clone, Copy)]
pub struct Step {
    pub size: u64,
    // the power of ten that it is a multiple of
    pub unit: u64,
    ghost unit_bound: { 1 ≤ unit },
    ghost size_bound: { (unit ≤ size) × (size < 10 * unit) × (size ≤ 500000000000) },
}

impl Step {
    // The next coarser step.
    pub(super) fn coarser(self) -> Step
        requires { self.size ≤ 50000000000 }
        ensures { self.size < result.size }
    {
        let unit = self.unit;
        if self.size == unit {
            return Step {
                size: 2 * unit,
                unit,
            };
        }
        if self.size == 2 * unit {
            return Step {
                size: 5 * unit,
                unit,
            };
        }
        Step {
            size: 10 * unit,
            unit: 10 * unit,
        }
    }
}
