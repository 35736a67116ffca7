//! Scalars of a finite field, vectors and small matrices over them, and vectors that solve.
#![tactic(auto)]

mod block;
mod entries;
mod inverse;
mod inversion;
mod laws;
mod listed;
mod operations;
mod row_operations;
mod rows;
mod scalars;
mod solution;
mod two;

pub use block::Block;
pub use entries::Entries;
pub use inverse::Inverse;
pub use inversion::invert;
pub use laws::{leading_combination_is_unique, leading_functional_is_unique};
pub use listed::Listed;
pub use operations::{apply, minus, product, sum};
pub use rows::{add_scaled, scale, zeros};
pub use scalars::{Scalars, all_scalars};
pub use solution::{Solution, solve};
pub use two::Two;
