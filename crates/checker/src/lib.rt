// The program checker: document 01's conditions 11 to 17 on a plan and its image, and the same of a plan
// alone. The definitions are crate plan's.
#![tactic(auto)]

mod image;
mod ranges;
mod successors;

pub use image::check;
pub use ranges::check_ranges;
pub use successors::{in_code, stray_of};
