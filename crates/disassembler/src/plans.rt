// The plan lines of a sheet, written.
ghost use Rattle.std.specs.Prelude.{◌∷◌, [], ◌++◌, ◌≡◌};
ghost use Rattle.text.specs.Bytes.{line_feed};
ghost use Rattle.text_bytes.specs.Writer.{Writes};
ghost use Rattle.word.specs.Profile.{LP5523};
ghost use Rattle.grammar.specs.declared.LineKind.TheVariants.{Plan};
ghost use Rattle.grammar.specs.Grammar.{write_line};
ghost use Rattle.grammar.specs.Values.{values_of};
ghost use Rattle.asm.specs.PlanLines.{plan_values};

use grammar::{LineKind, Values};
use plan::EnginePlan;
use text::LINE_FEED;
use text_bytes::Writer;

#[tactic(auto, unfolding(grammar::specs::Values::values_of))]
fn plan_values(engine: u16, q: EnginePlan) -> Values
    ensures { result ≡ values_of (plan_values engine q) }
{
    match q {
        EnginePlan::Unused => [engine, 1, 0, 0, 0, 0, 0],
        EnginePlan::CodeOnly { first, last } => [engine, 0, first.0, last.0, 1, 0, 0],
        EnginePlan::CodeAndTable {
            first,
            last,
            top,
            bottom,
        } => [engine, 0, first.0, last.0, 0, top.0, bottom.0],
    }
}

// Writes a plan line with its LF.
pub(super) fn put_plan(w: &mut Writer<'_>, engine: u16, q: EnginePlan)
    ensures { Writes w.old w.new (write_line LP5523 (Plan engine) (plan_values engine q) ++ (line_feed ∷ [])) }
{
    line_writer::put_line(w, LineKind::Plan(engine), plan_values(engine, q));
    w.put_byte(LINE_FEED);
}
