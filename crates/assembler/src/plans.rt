// The plan lines of a sheet, read.
ghost use Rattle.std.specs.Prelude.{List, ◌≡◌, ℕ, suc};
ghost use Rattle.text.specs.Bytes.{line_feed, split};
ghost use Rattle.word.specs.Profile.{LP5523};
ghost use Rattle.plan.specs.declared.EnginePlan.{EnginePlan};
ghost use Rattle.asm.specs.PlanLines.{engine_plan_of};
ghost use Rattle.asm.specs.Reading.{read_plans};
ghost use Rattle.assembler.specs.internal.Walks.{then_plans};

use super::lines::first_line;
use asm::AssembleError;
use grammar::{LineKind, Values};
use line_reader::read_line;
use plan::EnginePlan;
use word::Address;

// An engine's plan, from the values of its plan line.
pub fn engine_plan(v: Values) -> EnginePlan
    ensures { result ≡ engine_plan_of v }
{
    let [_, unused, first, last, code_only, top, bottom] = v;
    if unused != 0 {
        return EnginePlan::Unused;
    }
    let first = Address(first);
    let last = Address(last);
    if code_only != 0 {
        return EnginePlan::CodeOnly { first, last };
    }
    EnginePlan::CodeAndTable {
        first,
        last,
        top: Address(top),
        bottom: Address(bottom),
    }
}

// The plan line with which a text begins: an engine's plan, and the text after the line. Engine 1's is
// line 1, and so on.
pub(super) fn read_plan(text: &[u8], engine: u16) -> Result<(EnginePlan, &[u8]), AssembleError>
    ensures { (n : ℕ) (qs : List EnginePlan) → then_plans result engine n qs ≡ read_plans LP5523 (suc n) engine qs (split line_feed text.now) }
{
    let (part, rest) = first_line(text, engine)?;
    let values = read_line(part, LineKind::Plan(engine)).map_err(|error| AssembleError::Line {
        line: engine,
        error,
    })?;
    Ok((engine_plan(values), rest))
}
