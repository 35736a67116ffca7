//! Joined matrices of the blocks of a block complex: to make one, and to find where one differs from the blocks that
//! stand.
#![tactic(auto)]

mod entries;
mod grids;

pub use grids::{first_other, grid};
