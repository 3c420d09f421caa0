// 13: undefined words in code.
ghost use Rattle.std.specs.Prelude.{true, not, ◌≡◌};
ghost use Rattle.word.specs.Profile.{LP5523};
ghost use Rattle.word.specs.Classes.{is_undefined};
ghost use Rattle.word.specs.Decode.{decode_of};
ghost use Rattle.plan.specs.declared.CheckError.TheVariants.{UndefinedWord};
ghost use Rattle.plan.specs.Tests.{valid_ranges};
ghost use Rattle.plan.specs.internal.Passes.{required};
ghost use Rattle.disassembler.specs.internal.Walks.{engine_defined, plan_defined};

use decoder::{decode, is_undefined};
use plan::{CheckError, EnginePlan, Plan};
use word::{Address, WORDS};

fn check_word(engine: u16, address: Address, code: u16) -> Result<(), CheckError>
    ensures { result ≡ required (not (is_undefined (decode_of LP5523 code))) (UndefinedWord engine address) }
{
    if is_undefined(decode(code)) {
        return Err(CheckError::UndefinedWord { engine, address });
    }
    Ok(())
}

#[tactic(auto, unfolding(crate::specs::internal::Walks::engine_defined))]
fn check_engine(engine: u16, q: EnginePlan, image: &[u16; WORDS]) -> Result<(), CheckError>
    requires { valid_ranges LP5523 q ≡ true }
    ensures { result ≡ engine_defined LP5523 engine q image.now }
{
    let Some(code) = q.code() else {
        return Ok(());
    };
    for at in code.first.0..=code.last.0 {
        check_word(engine, Address(at), image[at as usize])?;
    }
    Ok(())
}

// The first undefined word of the plan's code is an Err, engine by engine.
#[tactic(auto, unfolding(crate::specs::internal::Walks::plan_defined))]
pub(super) fn check_defined(plan: Plan, image: &[u16; WORDS]) -> Result<(), CheckError>
    requires { (valid_ranges LP5523 plan.engine1 ≡ true) × (valid_ranges LP5523 plan.engine2 ≡ true) × (valid_ranges LP5523 plan.engine3 ≡ true) }
    ensures { result ≡ plan_defined LP5523 plan image.now }
{
    // a loop over plan.engines() is no shorter, and asks for an invariant
    check_engine(1, plan.engine1, image)?;
    check_engine(2, plan.engine2, image)?;
    check_engine(3, plan.engine3, image)
}
