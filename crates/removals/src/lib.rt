//! The removal of a pair of cells from a block complex, and what it keeps.
//!
//! Two cells x and y whose block is invertible go; the block from s to t becomes M(s, t) - M(x, t) a M(s, y), where a
//! is the inverse: one step of algebraic Morse theory.
#![tactic(auto)]

mod laws;

pub use laws::{
    removal_keeps_block_complex, removal_keeps_cochain_complex, removal_keeps_differential,
    removals_keep_all, removals_leave_one,
};
