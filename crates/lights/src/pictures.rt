// Pictures of the outputs over time. A picture begins `from` beats after the given chip, and has so many
// beats; both together are at most a run's limit.
mod axis;
mod curves;
mod levels;
mod marks;
mod names;
mod patterns;
mod pixels;
mod rows;
mod scale;
mod span;
mod steps;
mod times;
mod xml;

pub use curves::svg;
pub use rows::show;
