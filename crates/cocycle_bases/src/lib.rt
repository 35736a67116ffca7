//! Bases of the cohomology of a block complex, out of an equivalence with one that has no blocks; and the classes of
//! cocycles by them.
#![tactic(auto)]

mod basis;
mod class;
mod open_cells;

pub use basis::bases;
pub use class::{Class, classify};
