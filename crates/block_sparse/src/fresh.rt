ghost use Rattle.std.specs.Prelude.{◌≡◌, ◌≤◌, ◌+◌, ℕ, true, length, All, IfOk};
ghost use Rattle.rising_lists.specs.Rising.{IsRising, has, keys};
ghost use Rattle.dense_blocks.specs.Blocks.{matrix_of};
ghost use Rattle.block_sparse.specs.Grids.{width};
ghost use Rattle.block_sparse.specs.Fresh.{IsFreshRow, IsFreshColumn, AreFreshRows, AreFreshColumns};

use crate::parts::{are_scalar, column_marks, row_entries, row_parts};
use block_rows::{Row, Rows};
use dense_blocks::Block;
use open_columns::{Columns, Mark};
use rising_lists::{Line, Spares};
use std::alloc::{AllocError as NoMemory, Global};

/// A row of blocks once the parts of some rows of a matrix have come in at the listed cells.
fn fresh_row(
    alloc: Global,
    spares: &mut Spares<u8>,
    old: &Row,
    left: &[(u32, u8)],
    joined: &Block,
    row: u32,
    height: u8,
) -> Result<Row, NoMemory>
    requires rising { IsRising (keys left.now) }
    requires rows { row + height ≤ joined.now.rows }
    requires cols { width left.now ≤ joined.now.cols }
    ensures { IfOk result (λ l. IsFreshRow (matrix_of joined.now) row height left.now old.now l) }
{
    if height == 1 && are_scalar(left) {
        row_of_entries(alloc, spares, old, left, joined, row)
    } else {
        row_of_blocks(alloc, old, left, joined, row, height)
    }
}

/// The same for one row of a matrix and cells of size 1.
fn row_of_entries(
    alloc: Global,
    spares: &mut Spares<u8>,
    old: &Row,
    left: &[(u32, u8)],
    joined: &Block,
    row: u32,
) -> Result<Row, NoMemory>
    requires rising { IsRising (keys left.now) }
    requires scalar { All (λ l. l.1 ≡ 1) left.now }
    requires rows { row + 1 ≤ joined.now.rows }
    requires cols { width left.now ≤ joined.now.cols }
    ensures { IfOk result (λ l. IsFreshRow (matrix_of joined.now) row 1 left.now old.now l) }
{
    let entries = row_entries(joined, row, left.len());
    let fresh = old.with_entries(alloc, spares.take(alloc), left, entries)?;
    Ok(fresh)
}

/// The same for cells of any size.
fn row_of_blocks(
    alloc: Global,
    old: &Row,
    left: &[(u32, u8)],
    joined: &Block,
    row: u32,
    height: u8,
) -> Result<Row, NoMemory>
    requires rising { IsRising (keys left.now) }
    requires rows { row + height ≤ joined.now.rows }
    requires cols { width left.now ≤ joined.now.cols }
    ensures { IfOk result (λ l. IsFreshRow (matrix_of joined.now) row height left.now old.now l) }
{
    let parts = row_parts(alloc, joined, row, height, left)?;
    old.with_blocks(alloc, left, parts)
}

/// A column once the parts of some columns of a matrix have been noted at the listed cells.
fn fresh_column(
    alloc: Global,
    spares: &mut Spares<Mark>,
    old: &Line<Mark>,
    below: &[(u32, u8)],
    joined: &Block,
    col: u32,
    size: u8,
) -> Result<Line<Mark>, NoMemory>
    requires rising { IsRising (keys below.now) }
    requires cols { col + size ≤ joined.now.cols }
    requires rows { width below.now ≤ joined.now.rows }
    ensures { IfOk result (λ l. IsFreshColumn (matrix_of joined.now) col size below.now old.now l) }
{
    if size == 1 && are_scalar(below) {
        column_of_entries(spares.take(alloc), old, below, joined, col)
    } else {
        column_of_blocks(alloc, old, below, joined, col, size)
    }
}

/// The same for cells of any size.
fn column_of_blocks(
    alloc: Global,
    old: &Line<Mark>,
    below: &[(u32, u8)],
    joined: &Block,
    col: u32,
    size: u8,
) -> Result<Line<Mark>, NoMemory>
    requires rising { IsRising (keys below.now) }
    requires cols { col + size ≤ joined.now.cols }
    requires rows { width below.now ≤ joined.now.rows }
    ensures { IfOk result (λ l. IsFreshColumn (matrix_of joined.now) col size below.now old.now l) }
{
    let marks = column_marks(alloc, joined, col, size, below)?;
    let fresh = old.with_fresh(alloc, below, marks)?;
    Ok(fresh)
}

/// The same for one column of a matrix and cells of size 1.
fn column_of_entries(
    spare: Line<Mark>,
    old: &Line<Mark>,
    below: &[(u32, u8)],
    joined: &Block,
    col: u32,
) -> Result<Line<Mark>, NoMemory>
    requires rising { IsRising (keys below.now) }
    requires scalar { All (λ l. l.1 ≡ 1) below.now }
    requires cols { col + 1 ≤ joined.now.cols }
    requires rows { width below.now ≤ joined.now.rows }
    ensures { IfOk result (λ l. IsFreshColumn (matrix_of joined.now) col 1 below.now old.now l) }
{
    let mark = Mark {
        flagged: false,
        square: true,
    };
    let entries = joined.entries.as_slice();
    let fresh = old.with_value(
        spare,
        below,
        mark,
        entries,
        col as usize,
        joined.cols as usize,
    )?;
    Ok(fresh)
}

/// The rows of the cells below once a joined matrix has come in.
pub(crate) fn fresh_rows(
    alloc: Global,
    spares: &mut Spares<u8>,
    rows: &Rows,
    left: &[(u32, u8)],
    below: &[(u32, u8)],
    joined: &Block,
) -> Result<Vec<Row>, NoMemory>
    requires rising { IsRising (keys left.now) }
    requires within { (c : ℕ) → has c (keys below.now) ≡ true → has c rows.now.cells ≡ true }
    requires cols { width left.now ≤ joined.now.cols }
    requires rows { width below.now ≤ joined.now.rows }
    ensures count { IfOk result (λ ls. length ls.items ≡ length below.now) }
    ensures fresh { IfOk result
        (λ ls. AreFreshRows (matrix_of joined.now) left.now below.now rows.now ls.items (length below.now)) }
{
    let mut fresh = Vec::with_capacity(alloc, below.len())?;
    let mut row = 0;
    for (j, cell) in below.iter().enumerate() {
        // The loop's invariant names the place.
        let _at = j;
        let height = cell.1;
        fresh.push(fresh_row(alloc, spares, rows.row(cell.0), left, joined, row, height)?)?;
        row += u32::from(height);
    }
    Ok(fresh)
}

/// The columns of the cells on the left once a joined matrix has come in.
pub(crate) fn fresh_columns(
    alloc: Global,
    spares: &mut Spares<Mark>,
    columns: &Columns,
    left: &[(u32, u8)],
    below: &[(u32, u8)],
    joined: &Block,
) -> Result<Vec<Line<Mark>>, NoMemory>
    requires rising { IsRising (keys below.now) }
    requires within { (c : ℕ) → has c (keys left.now) ≡ true → has c columns.now.cells ≡ true }
    requires cols { width left.now ≤ joined.now.cols }
    requires rows { width below.now ≤ joined.now.rows }
    ensures count { IfOk result (λ ls. length ls.items ≡ length left.now) }
    ensures fresh { IfOk result
        (λ ls. AreFreshColumns (matrix_of joined.now) left.now below.now columns.now ls.items (length left.now)) }
{
    let mut fresh = Vec::with_capacity(alloc, left.len())?;
    let mut col = 0;
    for (i, cell) in left.iter().enumerate() {
        // The loop's invariant names the place.
        let _at = i;
        let size = cell.1;
        fresh.push(fresh_column(
            alloc,
            spares,
            columns.line(cell.0),
            below,
            joined,
            col,
            size,
        )?)?;
        col += u32::from(size);
    }
    Ok(fresh)
}
