//! Block complexes: live cells and a matrix for each ordered pair of them; their cochains and their coboundary.
//!
//! What stands here says nothing of how a block complex is stored.
#![tactic(auto)]

mod laws;

pub use laws::differential_is_cochain_complex;
