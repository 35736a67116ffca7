use crate::block::Block;

/// The inverse of a square block, or a vector that shows that there is none.
#[derive(Debug, Drop)]
pub enum Inverse {
    /// The inverse on both sides.
    Both(Block),
    /// A vector that is not zero and that the block sends to zero.
    Singular(Vec<u8>),
}
