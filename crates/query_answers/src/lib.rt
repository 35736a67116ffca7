//! Answers to questions, out of a slot: what a reduction leaves, and the maps to it, as one matrix for each degree; the
//! dimensions of the cohomology, bases of it, and the classes of cocycles; global sections, and whether a value extends
//! to one.
#![tactic(auto)]

mod answerer;
mod classes;
mod cohomology;
mod degrees;
mod dimensions;
mod ending;
mod equivalence;
mod extensions;
mod numbers;
mod reduction;
mod rows;

pub use answerer::Answerer;
pub use dimensions::degree_count;
