// Beats of a whole chip, one after another: it is taken into the parts that crate `engine` works on, and put
// together again. The crate `chip` makes a beat and a run of them.
#![tactic(auto)]

mod split;
mod stops;
mod whole;

pub use whole::run_beats;
