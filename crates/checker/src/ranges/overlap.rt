// 12: a code address that is also a table address.
ghost use Rattle.std.specs.Prelude.{not, ◌≡◌};
ghost use Rattle.std.specs.List.{list_any};
ghost use Rattle.word.specs.Profile.{LP5523};
ghost use Rattle.plan.specs.declared.CheckError.TheVariants.{CodeOverlapsTable};
ghost use Rattle.plan.specs.Tests.{overlap, overlaps};
ghost use Rattle.plan.specs.internal.Passes.{required, overlap_verdict};

use plan::{AddressRange, CheckError, EnginePlan, Plan};

// 12: both ranges have addresses, and neither lies beyond the other.
fn ranges_overlap(code: AddressRange, table: AddressRange) -> bool
    ensures { result ≡ overlap code.first code.last table.first table.last }
{
    code.first <= code.last
        && table.first <= table.last
        && code.first <= table.last
        && table.first <= code.last
}

fn overlaps_table_of(q: EnginePlan, other: EnginePlan) -> bool
    ensures { result ≡ overlaps q other }
{
    match (q.code(), other.table()) {
        (Some(code), Some(table)) => ranges_overlap(code, table),
        _ => false,
    }
}

// 12: the code of q is apart from each engine's table.
fn check_engine(engines: &[EnginePlan; 3], q: EnginePlan, engine: u16) -> Result<(), CheckError>
    ensures { result ≡ required (not (list_any (λ r. overlaps q r) engines.now)) (CodeOverlapsTable engine) }
{
    if engines.iter().any(|r| overlaps_table_of(q, *r)) {
        return Err(CheckError::CodeOverlapsTable { engine });
    }
    Ok(())
}

// 12, engine by engine.
pub(super) fn check_overlap(plan: Plan) -> Result<(), CheckError>
    ensures { result ≡ overlap_verdict LP5523 plan }
{
    let engines = plan.engines();
    for (k, q) in engines.iter().enumerate() {
        check_engine(&engines, *q, k as u16 + 1)?;
    }
    Ok(())
}
