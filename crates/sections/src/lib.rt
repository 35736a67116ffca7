//! Global sections of a block complex, which are its cocycles of degree 0: a basis of them, and those that have a given
//! value at a cell.
#![tactic(auto)]

mod basis;
mod extension;
mod values;

pub use basis::global;
pub use extension::{Extension, extend};
