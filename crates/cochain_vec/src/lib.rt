//! Cochains, and the cohomology of cells with matrices between them: cocycles modulo coboundaries.
//!
//! For a cellular sheaf these are the cochains and the coboundary of Curry, Ghrist and Nanda, "Discrete Morse theory
//! for computing cellular sheaf cohomology" (2016).
#![tactic(auto)]

mod cell;
mod cochain;
mod laws;

pub use cell::Cell;
pub use cochain::{Cochain, add, scale};
pub use laws::{dims_agree, empty_cells_change_nothing};
