//! The order in which square blocks are tried: from a pair of cells on, and then from the start.
#![tactic(auto)]

mod candidates;

pub use candidates::next_candidate;
