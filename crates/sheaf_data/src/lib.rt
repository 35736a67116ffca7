//! Cellular sheaves over a finite field: a complex, the size of each cell's stalk, and a matrix for each face.
#![tactic(auto)]

mod draft;
mod fault;
mod sheaf;
mod stalks;

pub use draft::{Draft, copy_blocks};
pub use fault::SealFault;
pub use sheaf::Sheaf;
pub use stalks::stalks_fit;
