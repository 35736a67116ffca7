//! Whether the incidences of a complex are regular: two ends of opposite sign at each edge, and signs that cancel
//! between cells of codimension two.
#![tactic(auto)]

mod first_fault;
mod incidence;
mod pairs;
mod reach;
mod signs;

pub use first_fault::check;
pub use incidence::Incidence;
