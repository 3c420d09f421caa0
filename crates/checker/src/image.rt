// The program checker: the first condition that a plan and its image don't meet, in document 01's
// order.
mod classes;
mod table;
mod table_use;
mod words;

ghost use Rattle.std.specs.Prelude.{true, ◌≡◌};
ghost use Rattle.word.specs.Profile.{LP5523};
ghost use Rattle.plan.specs.Tests.{valid_ranges};
ghost use Rattle.plan.specs.Verdict.{report_of};
ghost use Rattle.plan.specs.Check.{check_of};
ghost use Rattle.plan.specs.internal.Passes.{engine_verdict, engines_verdict};

use crate::ranges::check_ranges;
use plan::{CheckError, EnginePlan, Plan};
use word::WORDS;

// One engine's plan, of which 11 holds.
#[derive(Clone, Copy)]
struct Engine {
    plan: EnginePlan,
    number: u16,
    ghost valid: { valid_ranges LP5523 plan ≡ true },
}

impl Engine {
    #[tactic(auto, unfolding(plan::specs::internal::Passes::engine_verdict))]
    fn check(self, image: &[u16; WORDS]) -> Result<(), CheckError>
        ensures { result ≡ engine_verdict LP5523 self.plan self.number image.now }
    {
        self.check_words(image)?;
        self.check_opened(image)?;
        self.check_rows(image)
    }
}

// One function for the loops over engines would take the check as a closure, and say in `requires` what
// it answers.
fn check_engines(plan: Plan, image: &[u16; WORDS]) -> Result<(), CheckError>
    requires { (valid_ranges LP5523 plan.engine1 ≡ true) × (valid_ranges LP5523 plan.engine2 ≡ true) × (valid_ranges LP5523 plan.engine3 ≡ true) }
    ensures { result ≡ engines_verdict LP5523 plan image.now }
{
    let engines = plan.engines();
    for (k, q) in engines.iter().enumerate() {
        let engine = Engine {
            plan: *q,
            number: k as u16 + 1,
        };
        engine.check(image)?;
    }
    Ok(())
}

// The first condition that the plan and its image don't meet is an Err.
pub fn check(plan: Plan, image: &[u16]) -> Result<(), CheckError>
    ensures { report_of result ≡ report_of (check_of LP5523 plan image.now) }
{
    let Ok(image) = <&[u16; WORDS]>::try_from(image) else {
        return Err(CheckError::WrongLength);
    };
    check_ranges(plan)?;
    check_engines(plan, image)
}
