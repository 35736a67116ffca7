ghost use Rattle.std.specs.Prelude.{◌≡◌, ◌+◌, ◌<◌, ◌≤◌, ℕ, All, IfOk, OnOk, [], true, length, slice_index_or};
ghost use Rattle.std.specs.Prelude.{slice_set};
ghost use Rattle.std.specs.List.{flat_map};
ghost use Rattle.dense_blocks.specs.Vectors.{AllScalars};
ghost use Rattle.dense_blocks.specs.Matrices.{product};
ghost use Rattle.dense_blocks.specs.MatrixFacts.{IsMatrix, matrix_negative};
ghost use Rattle.dense_blocks.specs.Blocks.{matrix_of};
ghost use Rattle.dense_blocks.specs.BlockFacts.{IsBlock};
ghost use Rattle.rising_lists.specs.Rising.{has};
ghost use Rattle.cochain_vec.specs.Complexes.{coordinates, total_size};
ghost use Rattle.block_complexes.specs.BlockComplexes.{cells, degree_of, size_of};
ghost use Rattle.block_complexes.specs.Cochains.{complex_of, of_degree};
ghost use Rattle.block_sparse.specs.StoredBlocks.{complex_in, AreLive};
ghost use Rattle.equivalence_laws.specs.Transposes.{transpose};
ghost use Rattle.equivalences.specs.Rows.{HasShape, cell_rows_of, with_product, with_products};
ghost use Rattle.block_sparse.specs.Grids.{width};
ghost use Rattle.equivalence_laws.specs.CellMaps.{AreFirstMaps};
ghost use Rattle.equivalences.specs.LogMaps.{HasNextStep, TakesStep, HaveShapes, AreJoined, AreBlocksOf};
ghost use Rattle.equivalences.specs.Stored.{AreStored, maps_of};

use crate::cell_rows::CellRows;
use crate::equivalence::Equivalence;
use crate::live::{degree_in, remove};
use crate::rows::Rows;
use crate::transposed::transposed;
use block_sparse::Blocks;
use dense_blocks::{Block, Listed, Scalars, minus, product};
use reduce_step::Step;
use std::alloc::{AllocError as NoMemory, Global};

/// The maps of removals one after another, cell by cell.
///
/// Only what a removal has touched is written, beside h.
#[derive(Debug, Drop)]
pub(crate) struct Maps {
    /// The cells that are left, each with its degree and its size.
    pub(crate) live: Vec<(u32, u8, u8)>,
    /// At each cell that is left the rows of pi.
    pub(crate) pi: CellRows,
    /// At each cell that is left the columns of iota, each as a row.
    pub(crate) iota: CellRows,
    /// For each degree the matrix of h.
    pub(crate) h: Vec<Rows>,
}

impl Maps {
    /// The maps of no removal.
    pub(crate) fn first(alloc: Global, base: &Blocks) -> Result<Maps, NoMemory>
        ensures stored { IfOk result AreStored }
        ensures first { IfOk result (λ m. AreFirstMaps (complex_in base.now) (maps_of m)) }
    {
        let live = base.live();
        let mut h = Vec::with_capacity(alloc, Equivalence::DEGREES)?;
        for k in 0..Equivalence::DEGREES {
            let count = coordinates_of(base, k) as usize;
            let width = coordinates_of(base, k + 1) as usize;
            let rows = Rows::zeros(alloc, count, width)?;
            h.push(rows)?;
        }
        Ok(Maps {
            live: Vec::from_slice(alloc, live)?,
            pi: CellRows::units(alloc, base)?,
            iota: CellRows::units(alloc, base)?,
            h,
        })
    }

    /// The maps with the removal of a step more.
    pub(crate) fn add<F: Scalars>(
        &mut self,
        alloc: Global,
        f: &F,
        step: &Step,
    ) -> Result<(), NoMemory>
        requires stored { AreStored self.old }
        requires next { HasNextStep (F.ops f.now) (maps_of self.old) step.now }
        ensures stored { OnOk result (AreStored self.new) }
        ensures step { OnOk result (TakesStep (F.ops f.now) (maps_of self.old) step.now (maps_of self.new)) }
    {
        let k = usize::from(degree_in(&self.live, step.x));
        let rows = self.pi.take(alloc, step.y)?;
        let columns = self.iota.take(alloc, step.x)?;
        let moved = product(alloc, f, &step.inverse, &rows)?;
        let through = moved_columns(alloc, f, step, &columns)?;
        let row = transposed(alloc, &step.row)?;
        add_columns(alloc, f, &mut self.h, k, &columns, &moved)?;
        take_away(
            alloc,
            f,
            &mut self.pi,
            step.below.as_slice(),
            &step.column,
            &moved,
        )?;
        take_away(
            alloc,
            f,
            &mut self.iota,
            step.left.as_slice(),
            &row,
            &through,
        )?;
        self.pi.drop_rows(alloc, step.x);
        self.iota.drop_rows(alloc, step.y);
        remove(&mut self.live, step.x);
        remove(&mut self.live, step.y);
        Ok(())
    }

    /// The maps as joined matrices.
    pub(crate) fn join(self, alloc: Global, base: &Blocks) -> Result<Equivalence, NoMemory>
        requires stored { AreStored self }
        requires shapes { HaveShapes (complex_of (complex_in base.now)) (maps_of self) }
        ensures { IfOk result (AreJoined (complex_of (complex_in base.now)) (maps_of self)) }
    {
        let Maps { live, pi, iota, h } = self;
        let joined_pi = joined_rows(alloc, base, &live, &pi)?;
        let joined_iota = joined_columns(alloc, base, &live, &iota)?;
        let joined_h = blocks(alloc, base, h.as_slice())?;
        Ok(Equivalence {
            pi: Listed::of(joined_pi),
            iota: Listed::of(joined_iota),
            h: Listed::of(joined_h),
        })
    }
}

/// The inverse, transposed, times the columns of iota at `x`.
fn moved_columns<F: Scalars>(
    alloc: Global,
    f: &F,
    step: &Step,
    columns: &Block,
) -> Result<Block, NoMemory>
    requires columns { columns.now.rows ≡ step.now.inverse.rows }
    requires inverse_scalars { AllScalars (F.ops f.now) step.now.inverse.entries }
    requires scalars { AllScalars (F.ops f.now) columns.now.entries }
    ensures block { IfOk result (λ b. IsBlock b step.now.inverse.cols columns.now.cols
        (product (F.ops f.now) columns.now.cols
        (transpose step.now.inverse.cols (matrix_of step.now.inverse)) (matrix_of columns.now))) }
    ensures scalars { IfOk result (λ b. AllScalars (F.ops f.now) b.entries) }
{
    let inverse = transposed(alloc, &step.inverse)?;
    let through = product(alloc, f, &inverse, columns)?;
    Ok(through)
}

/// Adds to h of degree `k` the columns of iota at `x`, which are given as rows, times the moved rows.
fn add_columns<F: Scalars>(
    alloc: Global,
    f: &F,
    h: &mut Vec<Rows>,
    k: usize,
    columns: &Block,
    moved: &Block,
) -> Result<(), NoMemory>
    requires k { k < length h.old.items }
    requires rows { IsMatrix (F.ops f.now) columns.now.cols moved.now.cols (slice_index_or h.old.items k []) }
    requires some { 1 ≤ columns.now.cols }
    requires heights { columns.now.rows ≡ moved.now.rows }
    requires column_scalars { AllScalars (F.ops f.now) columns.now.entries }
    requires moved_scalars { AllScalars (F.ops f.now) moved.now.entries }
    ensures { OnOk result (h.new.items ≡ slice_set h.old.items k (with_product (F.ops f.now) moved.now.cols
        (slice_index_or h.old.items k []) (transpose columns.now.cols (matrix_of columns.now)) (matrix_of moved.now))) }
{
    let coefficients = transposed(alloc, columns)?;
    let rows = &mut h[k];
    rows.add_product(alloc, f, coefficients.entries.as_slice(), moved)?;
    Ok(())
}

/// Takes away from the rows at each listed cell its part of the coefficients times the moved rows.
fn take_away<F: Scalars>(
    alloc: Global,
    f: &F,
    rows: &mut CellRows,
    listed: &[(u32, u8)],
    coefficients: &Block,
    moved: &Block,
) -> Result<(), NoMemory>
    requires listed { All (λ l. (has l.0 rows.old.cells ≡ true) × (1 ≤ l.1)
        × IsMatrix (F.ops f.now) l.1 moved.now.cols (cell_rows_of rows.old l.0)) listed.now }
    requires rows { coefficients.now.rows ≡ width listed.now }
    requires columns { coefficients.now.cols ≡ moved.now.rows }
    requires coefficient_scalars { AllScalars (F.ops f.now) coefficients.now.entries }
    requires moved_scalars { AllScalars (F.ops f.now) moved.now.entries }
    ensures cells { rows.new.cells ≡ rows.old.cells }
    ensures rows { OnOk result ((q : ℕ) → cell_rows_of rows.new q ≡ with_products (F.ops f.now) moved.now.cols
        listed.now (matrix_of coefficients.now) (matrix_negative (F.ops f.now) (matrix_of moved.now)) q
        (cell_rows_of rows.old q)) }
{
    let away = minus(alloc, f, moved)?;
    rows.add_products(alloc, f, listed, coefficients, &away)?;
    Ok(())
}

/// How many coordinates the base has in degree `k`.
fn coordinates_of(base: &Blocks, k: usize) -> u32
    requires { k ≤ 16 }
    ensures is { result ≡ coordinates (complex_of (complex_in base.now)) k }
    ensures fits { result ≤ 4096 }
{
    // Its clauses bound the sum.
    let _live = base.live();
    let count = base.coordinates(k as u8);
    count as u32
}

/// In each degree the rows at the live cells, one after another.
fn joined_rows(
    alloc: Global,
    base: &Blocks,
    live: &[(u32, u8, u8)],
    rows: &CellRows,
) -> Result<Vec<Block>, NoMemory>
    requires live { AreLive live.now }
    requires cells { (c : ℕ) → has c (cells live.now) ≡ true → has c rows.now.cells ≡ true }
    requires shapes { (c : ℕ) → has c (cells live.now) ≡ true → HasShape (size_of live.now c)
        (coordinates (complex_of (complex_in base.now)) (degree_of live.now c)) (cell_rows_of rows.now c) }
    ensures blocks { IfOk result (λ bs. AreBlocksOf (λ k. total_size (of_degree k live.now))
        (coordinates (complex_of (complex_in base.now)))
        (λ k. flat_map (λ t. cell_rows_of rows.now t.cell) (of_degree k live.now)) bs.items) }
    ensures count { IfOk result (λ bs. length bs.items ≡ 16) }
{
    let mut joined = Vec::with_capacity(alloc, Equivalence::DEGREES)?;
    for k in 0..Equivalence::DEGREES {
        let width = coordinates_of(base, k);
        let block = rows.gather(alloc, live, k as u8, width)?;
        joined.push(block)?;
    }
    Ok(joined)
}

/// In each degree the matrix whose columns are the rows at the live cells, one after another.
fn joined_columns(
    alloc: Global,
    base: &Blocks,
    live: &[(u32, u8, u8)],
    columns: &CellRows,
) -> Result<Vec<Block>, NoMemory>
    requires live { AreLive live.now }
    requires cells { (c : ℕ) → has c (cells live.now) ≡ true → has c columns.now.cells ≡ true }
    requires shapes { (c : ℕ) → has c (cells live.now) ≡ true → HasShape (size_of live.now c)
        (coordinates (complex_of (complex_in base.now)) (degree_of live.now c)) (cell_rows_of columns.now c) }
    ensures blocks { IfOk result (λ bs. AreBlocksOf (coordinates (complex_of (complex_in base.now)))
        (λ k. total_size (of_degree k live.now)) (λ k. transpose (coordinates (complex_of (complex_in base.now)) k)
        (flat_map (λ t. cell_rows_of columns.now t.cell) (of_degree k live.now))) bs.items) }
    ensures count { IfOk result (λ bs. length bs.items ≡ 16) }
{
    let mut joined = Vec::with_capacity(alloc, Equivalence::DEGREES)?;
    for k in 0..Equivalence::DEGREES {
        let width = coordinates_of(base, k);
        let rows = columns.gather(alloc, live, k as u8, width)?;
        let block = transposed(alloc, &rows)?;
        joined.push(block)?;
    }
    Ok(joined)
}

/// In each degree the rows as a block.
fn blocks(alloc: Global, base: &Blocks, h: &[Rows]) -> Result<Vec<Block>, NoMemory>
    requires count { length h.now ≡ 16 }
    requires shapes { (k : ℕ) → HasShape (coordinates (complex_of (complex_in base.now)) k)
        (coordinates (complex_of (complex_in base.now)) (k + 1)) (slice_index_or h.now k []) }
    ensures blocks { IfOk result (λ bs. AreBlocksOf (coordinates (complex_of (complex_in base.now)))
        (λ k. coordinates (complex_of (complex_in base.now)) (k + 1)) (λ k. slice_index_or h.now k []) bs.items) }
    ensures count { IfOk result (λ bs. length bs.items ≡ 16) }
{
    let mut joined = Vec::with_capacity(alloc, Equivalence::DEGREES)?;
    for k in 0..Equivalence::DEGREES {
        let count = coordinates_of(base, k);
        let width = coordinates_of(base, k + 1);
        let block = wide_block(alloc, &h[k], count, width)?;
        joined.push(block)?;
    }
    Ok(joined)
}

/// The rows as a block of `width` columns, even where there are none.
fn wide_block(alloc: Global, rows: &Rows, count: u32, width: u32) -> Result<Block, NoMemory>
    requires width { width ≤ 4096 }
    requires shape { HasShape count width rows.now }
    ensures { IfOk result (λ b. IsBlock b count width rows.now) }
{
    let block = rows.block(alloc)?;
    Ok(Block {
        rows: count,
        cols: width,
        entries: block.entries,
    })
}
