// What stands at an address by a plan: code, a table row, or neither; whose it is, and in which line.
ghost use Rattle.std.specs.Prelude.{◌≡◌};
ghost use Rattle.std.specs.List.{list_any, position};
ghost use Rattle.word.specs.Profile.{LP5523};
ghost use Rattle.plan.specs.Tests.{in_code};
ghost use Rattle.asm.specs.Places.{in_table, line_kind_at, owner_at, line_of};

use checker::in_code;
use grammar::LineKind;
use plan::{EnginePlan, Plan};

fn in_table(q: EnginePlan, at: u32) -> bool
    ensures { result ≡ in_table q at }
{
    q.table().is_some_and(|table| table.contains(at))
}

// Each chain has a function: what one gives isn't proved where it stands in `line_kind_at` or `owner_at`.
fn any_code(engines: &[EnginePlan; 3], at: u32) -> bool
    ensures { result ≡ list_any (λ q. in_code q at) engines.now }
{
    engines.iter().any(|q| in_code(*q, at))
}

fn any_table(engines: &[EnginePlan; 3], at: u32) -> bool
    ensures { result ≡ list_any (λ q. in_table q at) engines.now }
{
    engines.iter().any(|q| in_table(*q, at))
}

// An address in both code and table is code.
#[tactic(auto, unfolding(asm::specs::Places::line_kind_at))]
pub fn line_kind_at(plan: Plan, a: u16) -> LineKind
    ensures { result ≡ line_kind_at LP5523 plan a }
{
    let engines = plan.engines();
    let at = a as u32;
    if any_code(&engines, at) {
        LineKind::Op
    } else if any_table(&engines, at) {
        LineKind::Row
    } else {
        LineKind::Spare
    }
}

// The place of the first engine whose code has the address.
fn code_place(engines: &[EnginePlan; 3], at: u32) -> Option<usize>
    ensures { result ≡ position (λ q. in_code q at) engines.now }
{
    engines.iter().position(|q| in_code(*q, at))
}

fn table_place(engines: &[EnginePlan; 3], at: u32) -> Option<usize>
    ensures { result ≡ position (λ q. in_table q at) engines.now }
{
    engines.iter().position(|q| in_table(*q, at))
}

// The lowest engine whose code has the address, else the lowest whose table has it. 0 stands for none,
// as document 01 has it and as this function's callers are promised.
pub fn owner_at(plan: Plan, a: u16) -> u16
    ensures { result ≡ owner_at LP5523 plan a }
{
    let engines = plan.engines();
    let at = a as u32;
    let place = code_place(&engines, at).or(table_place(&engines, at));
    place.map_or(0, |k| k as u16 + 1)
}

// The words stand after three plan lines, and lines are counted from 1.
pub fn line_of(a: u16) -> u32
    ensures { result ≡ line_of LP5523 a }
{
    a as u32 + 4
}
