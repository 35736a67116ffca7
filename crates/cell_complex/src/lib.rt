//! Complexes: cells with dimensions, which cell is a face of which, and the sign of each incidence.
#![tactic(auto)]

mod complex;
mod face;
mod fault;
mod guesses;
mod middles;
mod neighbours;

pub use complex::Complex;
pub use face::{Face, Sign};
pub use fault::{AddFault, BuildFault, FaceFault};
pub use middles::Middles;
