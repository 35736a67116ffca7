//! Rising lists of cells with values beside them, and merges of such lists in linear time.
#![tactic(auto)]

mod duplicate;
mod line;
mod lines;
mod merges;
mod places;
mod spares;

pub use duplicate::Duplicate;
pub use line::Line;
pub use lines::Lines;
pub use places::place;
pub use spares::Spares;
