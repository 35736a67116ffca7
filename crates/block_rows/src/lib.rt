//! Rows of blocks by cell: of a block of one entry only that entry takes room, a byte; larger blocks stand beside them.
#![tactic(auto)]

mod row;
mod rows;
mod scalar_blocks;

pub use row::Row;
pub use rows::Rows;
pub use scalar_blocks::ScalarBlocks;
