// 15: the mux words keep to the engine's own table.
ghost use Rattle.std.specs.Prelude.{◌≡◌};
ghost use Rattle.plan.specs.Tests.{use_inside, no_use, uses_own_table};

use plan::{AddressRange, EnginePlan};
use word::TableUse;

// 15, with a table: what a mux word says is the table's.
fn use_inside(table: AddressRange, usage: TableUse) -> bool
    ensures { result ≡ use_inside table.first table.last usage }
{
    match usage {
        TableUse::Nothing | TableUse::Forward | TableUse::Backward => true,
        TableUse::StartAt(address) => address == table.first,
        TableUse::EndAt(address) => address == table.last,
        TableUse::RowAt(address) => table.contains(address.0 as u32),
    }
}

// 15, without a table: only mux-clr and mux-sel.
fn no_use(usage: TableUse) -> bool
    ensures { result ≡ no_use usage }
{
    matches!(usage, TableUse::Nothing)
}

pub(super) fn uses_own_table(q: EnginePlan, usage: TableUse) -> bool
    ensures { result ≡ uses_own_table q usage }
{
    match q.table() {
        Some(table) => use_inside(table, usage),
        None => no_use(usage),
    }
}
