//! What the columns of a block complex note of its blocks, and the first open block of each column: square, and without
//! a flag.
#![tactic(auto)]

mod columns;
mod firsts;
mod mark;

pub use columns::Columns;
pub use mark::Mark;
