//! Whether the restrictions of a sheaf commute: between two cells, all ways through one cell have one product.
#![tactic(auto)]

mod answers;
mod pairs;
mod squares;
mod touched;

pub use squares::square;
pub use touched::{Touched, first_bad};
