use cochain_vec::Cell;
use dense_blocks::{Block, Listed};

/// A matrix from the coordinates of one cell to those of another; for a sheaf, the sign of a face times its
/// restriction.
#[derive(Debug, Drop)]
pub struct Arrow {
    /// The number of the cell that it comes from.
    pub from: u32,
    /// The number of the cell that it goes to.
    pub to: u32,
    /// The matrix: a row for each coordinate of `to`, and a column for each of `from`.
    pub block: Block,
}

/// Cells in rising order, and matrices between them. Cells without a matrix between them have the zero matrix, and
/// matrices between the same two cells add up.
#[derive(Debug, Drop)]
pub struct Complex {
    /// The cells.
    pub cells: Listed<Cell>,
    /// The matrices, in any order.
    pub arrows: Listed<Arrow>,
}
