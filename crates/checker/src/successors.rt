// 14: every successor of a word lies in the engine's own code. The parameters `q` and `at` are those of
// `stray_of`, which is public.
mod flows;

ghost use Rattle.std.specs.Prelude.{not, ◌∷◌, ◌≡◌, ◌+◌};
ghost use Rattle.std.specs.List.{find};
ghost use Rattle.word.specs.Classes.{flow_of};
ghost use Rattle.plan.specs.Ranges.{first_of};
ghost use Rattle.plan.specs.Conditions.{unless_endless};
ghost use Rattle.plan.specs.Tests.{in_code, successors_inside};
ghost use Rattle.plan.specs.Strays.{first_outside, stray_of};

use crate::successors::flows::flow_of;
use plan::EnginePlan;
use word::{Address, Flow, Step, Word};

// Whether an engine's code has an address.
pub fn in_code(q: EnginePlan, at: u32) -> bool
    ensures { result ≡ in_code q at }
{
    q.code().is_some_and(|code| code.contains(at))
}

// The engine's first code address, 0 where it has none, as the definition has it.
fn first_of(q: EnginePlan) -> Address
    ensures { result.0 ≡ first_of q }
{
    match q.code() {
        Some(code) => code.first,
        None => Address(0),
    }
}

// The first of some addresses that lies outside.
fn first_outside(q: EnginePlan, addresses: &[u32]) -> Option<u32>
    ensures { result ≡ find (λ at. not (in_code q at)) addresses.now }
{
    addresses.iter().copied().find(|&at| !in_code(q, at))
}

// A step counts from the engine's first word. Nowhere else is a step added to an address.
fn target_of(first: Address, step: Step) -> u32
    ensures { result ≡ first.0 + step.0 }
{
    first.0 as u32 + step.0 as u32
}

// The next word is no successor of a branch with loops=0.
fn branch_outside(q: EnginePlan, loops: u16, step: Step, next: u32) -> Option<u32>
    ensures { result ≡ first_outside (in_code q) ((first_of q + step.0) ∷ unless_endless loops next) }
{
    let target = target_of(first_of(q), step);
    if loops == 0 {
        return first_outside(q, &[target]);
    }
    first_outside(q, &[target, next])
}

// The first successor outside, by where the word at the address lets its engine go on.
#[tactic(auto, unfolding(plan::specs::Strays::stray_of))]
fn first_stray(q: EnginePlan, at: Address, flow: Flow) -> Option<u32>
    ensures { result ≡ stray_of q at.0 flow }
{
    let next = at.0 as u32 + 1;
    match flow {
        Flow::Next => first_outside(q, &[next]),
        Flow::Restart => first_outside(q, &[first_of(q).0 as u32]),
        Flow::Stop { .. } | Flow::Fault => None,
        Flow::Loop { loops, step } => branch_outside(q, loops, step, next),
        Flow::LoopVar { step, .. } => first_outside(q, &[target_of(first_of(q), step), next]),
        Flow::Skip { skip, .. } => first_outside(q, &[next, next + skip as u32]),
    }
}

// The first successor of a word at an address that lies outside the engine's own code, a u32 so that no
// addition to an address overflows.
pub fn stray_of(q: EnginePlan, at: Address, word: Word) -> Option<u32>
    ensures { result ≡ stray_of q at.0 (flow_of word) }
{
    first_stray(q, at, flow_of(word))
}

// 14: every successor lies in the engine's own code.
pub(super) fn successors_inside(q: EnginePlan, at: Address, word: Word) -> bool
    ensures { result ≡ successors_inside q at.0 (flow_of word) }
{
    stray_of(q, at, word).is_none()
}
