ghost use Rattle.std.specs.Prelude.{◌≡◌, ◌∷◌, [], true, is_some, IfOk};
ghost use Rattle.rising_lists.specs.Rising.{IsRising, keys};
ghost use Rattle.block_complexes.specs.BlockComplexes.{size_of};
ghost use Rattle.block_sparse.specs.StoredBlocks.{StandsAt, block_at, complex_in};
ghost use Rattle.block_sparse.specs.Grids.{AreSized, width};
ghost use Rattle.reduce_step.specs.Parts.{AreFootprintParts, IsJoinedBlock, sized_others};

use block_grids::grid;
use block_sparse::Blocks;
use dense_blocks::{Block, Listed, Scalars, all_scalars};
use std::alloc::{AllocError as NoMemory, Global};

/// What the removal of a pair of cells touches, copied: all that its result depends on.
///
/// The cells on the left are those other than `x` with a nonzero block to `y`; those below are those other than `y`
/// with a nonzero block from `x`. Both lists rise. A joined matrix has a column for each coordinate of the cells that
/// it goes from, and a row for each of those that it goes to, in order.
#[derive(Debug, Drop)]
pub struct Footprint {
    /// The cell that the pivot goes from.
    pub x: u32,
    /// The cell that the pivot goes to.
    pub y: u32,
    /// The cells on the left, each with its size.
    pub left: Listed<(u32, u8)>,
    /// The cells below, each with its size.
    pub below: Listed<(u32, u8)>,
    /// The square block from `x` to `y`.
    pub pivot: Block,
    /// The joined matrix of the blocks from the cells on the left to `y`.
    pub row: Block,
    /// The joined matrix of the blocks from `x` to the cells below.
    pub column: Block,
    /// The joined matrix of the blocks from the cells on the left to those below, zeros where none stands.
    pub corners: Block,
    pub ghost parts: { AreFootprintParts x y left below pivot row column },
    pub ghost corner_cols: { corners.cols ≡ width left },
    pub ghost corner_rows: { corners.rows ≡ width below },
}

impl Footprint {
    ghost use Rattle.std.specs.Prelude.{◌↔◌, IsTrue};
    ghost use Rattle.dense_blocks.specs.Field.{Ops};
    ghost use Rattle.block_complexes.specs.BlockComplexes.{IsBlockComplex};
    ghost use Rattle.reduce_step.specs.Footprints.{IsFootprint, IsOverField};

    /// The footprint of the pair (`x`, `y`), where a square block stands.
    ///
    /// Takes one search for each block of row `y` and of column `x`, then one step for each block in the rows of the
    /// cells below, for each pair of a cell on the left and a cell below, and for each entry copied. Fails only where
    /// memory does.
    pub fn copy(alloc: Global, b: &Blocks, x: u32, y: u32) -> Result<Footprint, NoMemory>
        requires stands { is_some (block_at b.now x y) ≡ true }
        requires square { size_of b.now.live y ≡ size_of b.now.live x }
        ensures copied { IfOk result (IsFootprint b.now x y) }
        ensures over { IfOk result (λ foot. (K : Ops) → IsBlockComplex K (complex_in b.now) → IsOverField K foot) }
    {
        let left = others(alloc, b, b.row(y), x)?;
        let below = others(alloc, b, b.column(x), y)?;
        let from = one(alloc, b, x)?;
        let to = one(alloc, b, y)?;
        let pivot = pivot(alloc, b, x, y)?;
        let row = joined(alloc, b, &left, &to)?;
        let column = joined(alloc, b, &from, &below)?;
        let corners = joined(alloc, b, &left, &below)?;
        Ok(Footprint {
            x,
            y,
            left,
            below,
            pivot,
            row,
            column,
            corners,
        })
    }

    /// Whether all entries are scalars of the field.
    pub fn is_over<F: Scalars>(&self, f: &F) -> bool
        ensures { IsTrue result ↔ IsOverField (F.ops f.now) self.now }
    {
        all_scalars(f, self.pivot.entries.as_slice())
            && all_scalars(f, self.row.entries.as_slice())
            && all_scalars(f, self.column.entries.as_slice())
            && all_scalars(f, self.corners.entries.as_slice())
    }
}

/// The cells but one, each with its size.
fn others(alloc: Global, b: &Blocks, there: &[u32], but: u32) -> Result<Listed<(u32, u8)>, NoMemory>
    ensures { IfOk result (λ l. l ≡ sized_others b.now.live there.now but) }
{
    let listed = list(alloc, b, there, but)?;
    Ok(Listed::of(listed))
}

/// The cells but one, each with its size, in a vector.
fn list(alloc: Global, b: &Blocks, there: &[u32], but: u32) -> Result<Vec<(u32, u8)>, NoMemory>
    ensures { IfOk result (λ l. l.items ≡ sized_others b.now.live there.now but) }
{
    there
        .iter()
        .filter(|c| **c != but)
        .map(|c| b.cell_and_size(*c))
        .collect(alloc)
}

/// The cell alone, with its size.
fn one(alloc: Global, b: &Blocks, c: u32) -> Result<Listed<(u32, u8)>, NoMemory>
    ensures { IfOk result (λ l. l ≡ (c, size_of b.now.live c) ∷ []) }
{
    let mut cells = Vec::with_capacity(alloc, 1)?;
    cells.push(b.cell_and_size(c))?;
    Ok(Listed::of(cells))
}

/// A copy of the block that stands at a pair.
fn pivot(alloc: Global, b: &Blocks, x: u32, y: u32) -> Result<Block, NoMemory>
    requires { is_some (block_at b.now x y) ≡ true }
    ensures { IfOk result (StandsAt b.now x y) }
{
    let block = b.get(x, y).unwrap();
    block.copy(alloc)
}

/// The joined matrix of the blocks between listed cells.
fn joined(
    alloc: Global,
    b: &Blocks,
    left: &Listed<(u32, u8)>,
    below: &Listed<(u32, u8)>,
) -> Result<Block, NoMemory>
    requires left_rises { IsRising (keys left.now) }
    requires below_rises { IsRising (keys below.now) }
    requires left_sized { AreSized b.now.live left.now }
    requires below_sized { AreSized b.now.live below.now }
    ensures { IfOk result (IsJoinedBlock b.now left.now below.now) }
{
    let block = grid(alloc, b, left.as_slice(), below.as_slice())?;
    Ok(block)
}
