// What stands at each address of a sheet, to which engine it belongs, and in which line it stands.
#![tactic(auto)]

mod places;

pub use places::{line_kind_at, line_of, owner_at};
