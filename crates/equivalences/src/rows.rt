ghost use Rattle.std.specs.Prelude.{◌≡◌, ◌+◌, ◌*◌, ◌≤◌, [], length, true, IfOk, OnOk, OnErr};
ghost use Rattle.std.specs.Prelude.{◌↔◌, IsTrue, All};
ghost use Rattle.dense_blocks.specs.Vectors.{AllScalars, plus, combination};
ghost use Rattle.dense_blocks.specs.Matrices.{cut};
ghost use Rattle.dense_blocks.specs.MatrixFacts.{IsMatrix, zero_matrix};
ghost use Rattle.dense_blocks.specs.Blocks.{matrix_of};
ghost use Rattle.equivalences.specs.Rows.{AreRows, rows_of, unit_rows, with_product};

use dense_blocks::{Block, Entries, Scalars, zeros};
use std::alloc::{AllocError as NoMemory, Global};
use std::marker::Model;

/// Some rows of a matrix: rows of the identity, which take no memory, until something is added to them.
#[derive(Debug, Drop)]
pub(crate) struct Rows {
    count: usize,
    /// The place of the one in the first row, while they are rows of the identity.
    start: usize,
    width: usize,
    is_written: bool,
    /// The entries, row after row, once they are written.
    entries: Vec<u8>,
}

impl Model for Rows {
    ghost use Rattle.std.specs.Prelude.{List, ℕ};
    ghost use Rattle.equivalences.specs.Rows.{AreRows, rows_of};

    ghost Value = { List (List ℕ) };

    ghost view = { λ r. rows_of r.count r.start r.width r.is_written r.entries.items };

    ghost invariant = { λ r. AreRows r.count r.start r.width r.is_written r.entries.items };
}

impl Rows {
    /// No rows; takes no memory.
    pub(crate) fn none(alloc: Global) -> Rows
        ensures { result ≡ [] }
    {
        Rows {
            count: 0,
            start: 0,
            width: 0,
            is_written: true,
            entries: Vec::new(alloc),
        }
    }

    /// Rows of the identity of `width` rows, from one on; takes no memory.
    pub(crate) fn units(alloc: Global, count: usize, start: usize, width: usize) -> Rows
        requires fit { start + count ≤ width }
        requires width { width ≤ 4096 }
        ensures { result ≡ unit_rows count start width }
    {
        Rows {
            count,
            start,
            width,
            is_written: false,
            entries: Vec::new(alloc),
        }
    }

    /// Rows of zeros.
    pub(crate) fn zeros(alloc: Global, count: usize, width: usize) -> Result<Rows, NoMemory>
        requires count { count ≤ 4096 }
        requires width { width ≤ 4096 }
        ensures { IfOk result (λ r. r ≡ zero_matrix count width) }
    {
        Ok(Rows {
            count,
            start: 0,
            width,
            is_written: true,
            entries: zeros(alloc, count * width)?,
        })
    }

    /// The rows as a block.
    pub(crate) fn block(&self, alloc: Global) -> Result<Block, NoMemory>
        ensures { IfOk result (λ b. matrix_of b ≡ self.now) }
    {
        if self.is_written {
            Block::of(alloc, self.count as u32, self.width as u32, &self.entries)
        } else {
            unit_block(alloc, self.count, self.start, self.width)
        }
    }

    /// Adds to each row the combination of the moved rows by its coefficients, which are given row after row.
    ///
    /// Without memory the rows are as they were.
    pub(crate) fn add_product<F: Scalars>(
        &mut self,
        alloc: Global,
        f: &F,
        coefficients: &[u8],
        moved: &Block,
    ) -> Result<(), NoMemory>
        requires rows { IsMatrix (F.ops f.now) (length self.old) moved.now.cols self.old }
        requires some { 1 ≤ length self.old }
        requires full { length coefficients.now ≡ length self.old * moved.now.rows }
        requires coefficient_scalars { AllScalars (F.ops f.now) coefficients.now }
        requires moved_scalars { AllScalars (F.ops f.now) moved.now.entries }
        ensures { OnOk result (self.new ≡ with_product (F.ops f.now) moved.now.cols self.old
            (cut (length self.old) moved.now.rows coefficients.now) (matrix_of moved.now)) }
    {
        write(
            alloc,
            self.count,
            self.start,
            self.width,
            self.is_written,
            &mut self.entries,
        )?;
        self.is_written = true;
        add_rows(f, self.count, &mut self.entries, coefficients, moved);
        Ok(())
    }
}

/// Writes rows of the identity, where none are written; without memory nothing changes.
fn write(
    alloc: Global,
    count: usize,
    start: usize,
    width: usize,
    is_written: bool,
    entries: &mut Vec<u8>,
) -> Result<(), NoMemory>
    requires { AreRows count start width is_written entries.old.items }
    ensures rows { OnOk result (AreRows count start width true entries.new.items) }
    ensures written { OnOk result (cut count width entries.new.items
        ≡ rows_of count start width is_written entries.old.items) }
    ensures err { OnErr result (entries.new ≡ entries.old) }
{
    if is_written {
        return Ok(());
    }
    let units = unit_block(alloc, count, start, width)?;
    *entries = Vec::from_slice(alloc, units.entries.as_slice())?;
    Ok(())
}

/// Rows of the identity of `width` rows, from one on.
fn unit_block(alloc: Global, count: usize, start: usize, width: usize) -> Result<Block, NoMemory>
    requires fit { start + count ≤ width }
    requires width { width ≤ 4096 }
    ensures matrix { IfOk result (λ b. matrix_of b ≡ unit_rows count start width) }
    ensures rows { IfOk result (λ b. b.rows ≡ count) }
    ensures cols { IfOk result (λ b. b.cols ≡ width) }
{
    let mut entries = Entries::with_room(alloc, count * width)?;
    for i in 0..count {
        entries.push_zeros(start + i)?;
        entries.push(1)?;
        entries.push_zeros(width - 1 - (start + i))?;
    }
    Ok(Block {
        rows: count as u32,
        cols: width as u32,
        entries,
    })
}

/// Adds to each of the rows, which are given one after another, the combination of the moved rows by its coefficients.
fn add_rows<F: Scalars>(f: &F, count: usize, rows: &mut [u8], coefficients: &[u8], moved: &Block)
    requires count { count ≤ 4096 }
    requires full { length rows.old ≡ count * moved.now.cols }
    requires coefficients { length coefficients.now ≡ count * moved.now.rows }
    requires row_scalars { AllScalars (F.ops f.now) rows.old }
    requires coefficient_scalars { AllScalars (F.ops f.now) coefficients.now }
    requires moved_scalars { AllScalars (F.ops f.now) moved.now.entries }
    ensures sum { cut count moved.now.cols rows.new ≡ with_product (F.ops f.now) moved.now.cols
        (cut count moved.now.cols rows.old) (cut count moved.now.rows coefficients.now) (matrix_of moved.now) }
    ensures length { length rows.new ≡ length rows.old }
{
    let width = moved.cols as usize;
    let height = moved.rows as usize;
    for i in 0..count {
        let start = i * width;
        let from = i * height;
        let row = &mut rows[start..start + width];
        let own = &coefficients[from..from + height];
        add_row(f, row, own, moved);
    }
}

/// Adds to the row the combination of the moved rows by the coefficients; takes no more than a look at these where all
/// are zero.
fn add_row<F: Scalars>(f: &F, row: &mut [u8], coefficients: &[u8], moved: &Block)
    requires width { length row.old ≡ moved.now.cols }
    requires coefficients { length coefficients.now ≡ moved.now.rows }
    requires row_scalars { AllScalars (F.ops f.now) row.old }
    requires coefficient_scalars { AllScalars (F.ops f.now) coefficients.now }
    requires moved_scalars { AllScalars (F.ops f.now) moved.now.entries }
    ensures { row.new ≡ plus (F.ops f.now) row.old
        (combination (F.ops f.now) moved.now.cols coefficients.now (matrix_of moved.now)) }
{
    if are_zero(coefficients) {
        return;
    }
    f.add_combination(row, coefficients, moved.entries.as_slice());
}

/// Whether each of the coefficients is 0.
fn are_zero(coefficients: &[u8]) -> bool
    ensures { IsTrue result ↔ All (λ k. k ≡ 0) coefficients.now }
{
    coefficients.iter().all(|k| *k == 0)
}
