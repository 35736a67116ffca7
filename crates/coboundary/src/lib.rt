//! The coboundary of a cellular sheaf: taken twice it is zero; and the block complex that a sheaf is.
#![tactic(auto)]

mod laws;
mod start;

pub use laws::{
    coboundaries_are_cocycles, dd_zero, start_has_the_coboundary, start_has_the_cohomology,
    start_is_block_complex, start_is_cochain_complex,
};
pub use start::full;
