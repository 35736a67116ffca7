//! Equivalences of block complexes in memory: their three maps, as joined matrices for each degree, the composite of
//! two, and the bases of cohomology that they carry over.
#![tactic(auto)]

mod cell_rows;
mod composite;
mod equivalence;
mod images;
mod live;
mod log;
mod maps;
mod products;
mod rows;
mod transposed;

pub use composite::compose;
pub use equivalence::Equivalence;
pub use images::basis;
pub use log::of_log;
