//! Block complexes split into their coordinates, and reduced until no block is left.
#![tactic(auto)]

mod coordinates;
mod entries;
mod laws;
mod reduction;

pub use entries::split;
pub use laws::{
    finish_counts_dimensions, finish_is_after, finishes_are_equal, split_keeps_all, splits_are_same,
};
pub use reduction::{Finished, finish};
