// The checks on the plan alone: 11 and 12.
mod overlap;
mod valid;

ghost use Rattle.std.specs.Prelude.{◌≡◌};
ghost use Rattle.word.specs.Profile.{LP5523};
ghost use Rattle.plan.specs.Verdict.{report_of};
ghost use Rattle.plan.specs.Check.{check_ranges_of};

use crate::ranges::overlap::check_overlap;
use crate::ranges::valid::check_valid;
use plan::{CheckError, Plan};

// The first condition on its ranges that a plan doesn't meet is an Err.
#[tactic(auto, using(plan::proofs::Passes::both_ranges))]
pub fn check_ranges(plan: Plan) -> Result<(), CheckError>
    ensures { report_of result ≡ report_of (check_ranges_of LP5523 plan) }
{
    check_valid(plan)?;
    check_overlap(plan)
}
