//! Whole reductions: the first pair of cells that may be removed, again and again, until none is left.
#![tactic(auto)]

mod reduction;

pub use reduction::reduce;
