//! Block complexes whose zero blocks take no room: for each cell the blocks that go to it.
//!
//! What is here: to make and copy one, to read its blocks by pair, row and column, to put blocks one by one, by list or
//! as the parts of a joined matrix, to set flags, to take cells away, to compare a joined matrix with the blocks of a
//! row or of a column, to find the square blocks without a flag, and to apply all blocks to a cochain. Besides, an
//! entry of a joined matrix, and whether a part of it is zero, or a block.
#![tactic(auto)]

mod blocks;
mod coboundary;
mod comparison;
mod flags;
mod fresh;
mod gapped;
mod live_cells;
mod parts;

pub use blocks::Blocks;
pub use comparison::is_listed;
pub use parts::{is_same_at, is_zero_at, scalar_at};
