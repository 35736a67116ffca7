ghost use Rattle.std.specs.Prelude.{◌≡◌, ◌*◌, ◌≤◌, length};

use crate::entries::Entries;
use std::alloc::{AllocError as NoMemory, Global};

/// A matrix of at most 4,096 rows and 4,096 columns of scalars, row by row.
#[derive(Debug, Drop)]
pub struct Block {
    /// The number of rows.
    pub rows: u32,
    /// The number of columns.
    pub cols: u32,
    /// The entries, row after row.
    pub entries: Entries,
    pub ghost rows_fit: { rows ≤ 4096 },
    pub ghost cols_fit: { cols ≤ 4096 },
    pub ghost full: { length entries ≡ rows * cols },
}

impl Block {
    ghost use Rattle.std.specs.Prelude.{◌<◌, ◌↔◌, [], IsTrue, IfOk, slice_index_or};
    ghost use Rattle.dense_blocks.specs.Matrices.{cut};
    ghost use Rattle.dense_blocks.specs.MatrixFacts.{identity, zero_matrix};
    ghost use Rattle.dense_blocks.specs.Blocks.{matrix_of};
    ghost use Rattle.dense_blocks.specs.BlockFacts.{IsBlock};

    /// The most rows, and the most columns, of a block.
    pub const MOST: u32 = 4096;

    /// The block with these entries, given row after row.
    pub fn of(alloc: Global, rows: u32, cols: u32, entries: &[u8]) -> Result<Block, NoMemory>
        requires rows_fit { rows ≤ 4096 }
        requires cols_fit { cols ≤ 4096 }
        requires full { length entries.now ≡ rows * cols }
        ensures block { IfOk result (λ b. IsBlock b rows cols (cut rows cols entries.now)) }
        ensures entries { IfOk result (λ b. b.entries ≡ entries.now) }
    {
        Ok(Block {
            rows,
            cols,
            entries: Entries::of(alloc, entries)?,
        })
    }

    /// The block of zeros.
    #[tactic(auto, using(crate::proofs::Cutting::cutting))]
    pub fn zero(alloc: Global, rows: u32, cols: u32) -> Result<Block, NoMemory>
        requires rows_fit { rows ≤ 4096 }
        requires cols_fit { cols ≤ 4096 }
        ensures { IfOk result (λ b. IsBlock b rows cols (zero_matrix rows cols)) }
    {
        let size = rows as usize * cols as usize;
        let mut entries = Entries::with_room(alloc, size)?;
        entries.push_zeros(size)?;
        Ok(Block {
            rows,
            cols,
            entries,
        })
    }

    /// The square block with ones on the diagonal and zeros elsewhere.
    #[tactic(auto, using(crate::proofs::Cutting::cutting))]
    pub fn identity(alloc: Global, n: u32) -> Result<Block, NoMemory>
        requires { n ≤ 4096 }
        ensures { IfOk result (λ b. IsBlock b n n (identity n)) }
    {
        let mut entries = Entries::with_room(alloc, n as usize * n as usize)?;
        for i in 0..n {
            entries.push_zeros(i as usize)?;
            entries.push(1)?;
            entries.push_zeros((n - 1 - i) as usize)?;
        }
        Ok(Block {
            rows: n,
            cols: n,
            entries,
        })
    }

    /// An equal block.
    pub fn copy(&self, alloc: Global) -> Result<Block, NoMemory>
        ensures { IfOk result (λ b. b ≡ self.now) }
    {
        Ok(Block {
            rows: self.rows,
            cols: self.cols,
            entries: Entries::of(alloc, self.entries.as_slice())?,
        })
    }

    /// The row at `i`.
    #[tactic(auto, using(crate::proofs::Cutting::cutting))]
    pub fn row(&self, i: u32) -> &[u8]
        requires { i < self.now.rows }
        ensures row { result.now ≡ slice_index_or (matrix_of self.now) i [] }
        ensures size { length result.now ≡ self.now.cols }
    {
        let columns = self.cols as usize;
        let start = i as usize * columns;
        &self.entries.as_slice()[start..start + columns]
    }

    /// Whether so many rows and columns make a block that has `len` entries.
    pub fn fits(rows: u32, cols: u32, len: usize) -> bool
        ensures { IsTrue result ↔ ((rows ≤ 4096) × (cols ≤ 4096) × (len ≡ rows * cols)) }
    {
        rows <= Block::MOST && cols <= Block::MOST && len == rows as usize * cols as usize
    }
}
