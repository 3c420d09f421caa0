// What to repair in a line that is refused with 20, 21 or 22. Lines are without their LF.
mod explained;
mod faults;
mod judging;
mod places;

pub use explained::of_line;
pub use places::{is_elsewhere, of_place};
