// 11: first above last, top above bottom, or past the memory.
ghost use Rattle.std.specs.Prelude.{◌≡◌};
ghost use Rattle.word.specs.Profile.{LP5523};
ghost use Rattle.plan.specs.declared.CheckError.TheVariants.{InvalidRange};
ghost use Rattle.plan.specs.Tests.{valid_some, valid_ranges};
ghost use Rattle.plan.specs.internal.Passes.{required, valid_verdict};

use plan::{AddressRange, CheckError, EnginePlan, Plan};
use word::WORDS;

// 11: the range is in order and in the memory, if there is one.
fn is_valid(range: Option<AddressRange>) -> bool
    ensures { result ≡ valid_some LP5523 range }
{
    range.is_none_or(|r| r.first <= r.last && (r.last.0 as usize) < WORDS)
}

fn check_engine(q: EnginePlan, engine: u16) -> Result<(), CheckError>
    ensures { result ≡ required (valid_ranges LP5523 q) (InvalidRange engine) }
{
    if is_valid(q.code()) && is_valid(q.table()) {
        Ok(())
    } else {
        Err(CheckError::InvalidRange { engine })
    }
}

// 11, engine by engine.
pub(super) fn check_valid(plan: Plan) -> Result<(), CheckError>
    ensures { result ≡ valid_verdict LP5523 plan }
{
    let engines = plan.engines();
    for (k, q) in engines.iter().enumerate() {
        check_engine(*q, k as u16 + 1)?;
    }
    Ok(())
}
