//! Bases of the cohomology of cells with matrices, by plain elimination over the whole complex.
//!
//! For a cellular sheaf this is the cohomology of Curry, Ghrist and Nanda, "Discrete Morse theory for computing
//! cellular sheaf cohomology" (2016), from the coboundary as it is.
#![tactic(auto)]

mod coboundary;
mod cohomology;
mod columns;
mod complements;
mod complex;
mod relations;

pub use cohomology::basis;
pub use complex::{Arrow, Complex};
