ghost use Rattle.std.specs.Prelude.{◌≡◌, ◌==◌, ◌<◌, ◌≤◌, ◌+◌, ℕ, false, [], None, Some, if◌then◌else◌, length, take};
ghost use Rattle.std.specs.Prelude.{drop, slice_index_or, map, All, IfOk, IsTrue, ◌↔◌};
ghost use Rattle.std.specs.List.{list_all};
ghost use Rattle.dense_blocks.specs.Blocks.{matrix_of};
ghost use Rattle.dense_blocks.specs.BlockFacts.{IsBlock};
ghost use Rattle.block_sparse.specs.StoredBlocks.{is_zero};
ghost use Rattle.block_sparse.specs.Grids.{width, window, IsPart};
ghost use Rattle.block_sparse.specs.Fresh.{mark_of};

use dense_blocks::{Block, Entries};
use open_columns::Mark;
use std::alloc::{AllocError as NoMemory, Global};

/// Whether each entry is 0.
fn all_zero(entries: &[u8]) -> bool
    ensures { result ≡ list_all (λ a. a == 0) entries.now }
{
    entries.iter().all(|a| *a == 0)
}

/// The part of a row that begins at `col`.
fn row_part(joined: &Block, i: u32, col: u32, width: u8) -> &[u8]
    requires row { i < joined.now.rows }
    requires cols { col + width ≤ joined.now.cols }
    ensures { result.now ≡ take width (drop col (slice_index_or (matrix_of joined.now) i [])) }
{
    let start = col as usize;
    &joined.row(i)[start..start + width as usize]
}

/// The entry of a matrix in a row and a column.
pub fn scalar_at(joined: &Block, row: u32, col: u32) -> u8
    requires row { row < joined.now.rows }
    requires col { col < joined.now.cols }
    ensures value { result ≡ slice_index_or (slice_index_or (matrix_of joined.now) row []) col 0 }
    ensures size { length (slice_index_or (matrix_of joined.now) row []) ≡ joined.now.cols }
{
    joined.row(row)[col as usize]
}

/// Whether a part of a matrix is zero: `height` rows from `row` on, and of each `width` entries from `col` on.
pub fn is_zero_at(joined: &Block, row: u32, height: u8, col: u32, width: u8) -> bool
    requires rows { row + height ≤ joined.now.rows }
    requires cols { col + width ≤ joined.now.cols }
    ensures { result ≡ is_zero (window row height col width (matrix_of joined.now)) }
{
    if height == 1 && width == 1 {
        scalar_at(joined, row, col) == 0
    } else {
        are_zero_rows(joined, row, height, col, width)
    }
}

/// The same for parts of any shape.
fn are_zero_rows(joined: &Block, row: u32, height: u8, col: u32, width: u8) -> bool
    requires rows { row + height ≤ joined.now.rows }
    requires cols { col + width ≤ joined.now.cols }
    ensures { result ≡ is_zero (window row height col width (matrix_of joined.now)) }
{
    for i in 0..u32::from(height) {
        if !all_zero(row_part(joined, row + i, col, width)) {
            return false;
        }
    }
    true
}

/// A part of a matrix, as a block.
fn cut(
    alloc: Global,
    joined: &Block,
    row: u32,
    height: u8,
    col: u32,
    width: u8,
) -> Result<Block, NoMemory>
    requires rows { row + height ≤ joined.now.rows }
    requires cols { col + width ≤ joined.now.cols }
    ensures { IfOk result (λ b. IsBlock b height width (window row height col width (matrix_of joined.now))) }
{
    let mut entries = Entries::with_room(alloc, height as usize * width as usize)?;
    for i in 0..u32::from(height) {
        entries.push_all(row_part(joined, row + i, col, width))?;
    }
    Ok(Block {
        rows: u32::from(height),
        cols: u32::from(width),
        entries,
    })
}

/// A part of a matrix, as a block; none where it is zero.
fn part(
    alloc: Global,
    joined: &Block,
    row: u32,
    height: u8,
    col: u32,
    width: u8,
) -> Result<Option<Block>, NoMemory>
    requires rows { row + height ≤ joined.now.rows }
    requires cols { col + width ≤ joined.now.cols }
    ensures { IfOk result (λ p. IsPart p height width (window row height col width (matrix_of joined.now))) }
{
    if is_zero_at(joined, row, height, col, width) {
        Ok(None)
    } else {
        Ok(Some(cut(alloc, joined, row, height, col, width)?))
    }
}

/// Whether each of the listed cells has size 1.
pub(crate) fn are_scalar(listed: &[(u32, u8)]) -> bool
    ensures { IsTrue result ↔ All (λ l. l.1 ≡ 1) listed.now }
{
    listed.iter().all(|l| l.1 == 1)
}

/// The first `count` entries of a row of a matrix.
pub(crate) fn row_entries(joined: &Block, row: u32, count: usize) -> &[u8]
    requires row { row < joined.now.rows }
    requires cols { count ≤ joined.now.cols }
    ensures entries { result.now ≡ take count (slice_index_or (matrix_of joined.now) row []) }
    ensures size { length (slice_index_or (matrix_of joined.now) row []) ≡ joined.now.cols }
{
    &joined.row(row)[..count]
}

/// The parts of some rows of a matrix, one for each of the cells that its columns belong to.
pub(crate) fn row_parts(
    alloc: Global,
    joined: &Block,
    row: u32,
    height: u8,
    left: &[(u32, u8)],
) -> Result<Vec<Option<Block>>, NoMemory>
    requires rows { row + height ≤ joined.now.rows }
    requires cols { width left.now ≤ joined.now.cols }
    ensures count { IfOk result (λ ps. length ps.items ≡ length left.now) }
    ensures parts { IfOk result (λ ps. (i : ℕ) → i < length left.now
        → IsPart (slice_index_or ps.items i None) height (slice_index_or left.now i (0, 0)).1
        (window row height (width (take i left.now)) (slice_index_or left.now i (0, 0)).1 (matrix_of joined.now))) }
{
    let mut parts = Vec::with_capacity(alloc, left.len())?;
    let mut col = 0;
    for (i, cell) in left.iter().enumerate() {
        // The loop's invariant names the place.
        let _at = i;
        let size = cell.1;
        parts.push(part(alloc, joined, row, height, col, size)?)?;
        col += u32::from(size);
    }
    Ok(parts)
}

/// What columns note of the parts of some columns of a matrix, one for each of the cells that its rows belong to.
pub(crate) fn column_marks(
    alloc: Global,
    joined: &Block,
    col: u32,
    size: u8,
    below: &[(u32, u8)],
) -> Result<Vec<Option<Mark>>, NoMemory>
    requires cols { col + size ≤ joined.now.cols }
    requires rows { width below.now ≤ joined.now.rows }
    ensures count { IfOk result (λ ms. length ms.items ≡ length below.now) }
    ensures marks { IfOk result (λ ms. (j : ℕ) → j < length below.now → slice_index_or ms.items j None
        ≡ mark_of (slice_index_or below.now j (0, 0)).1 size
        (window (width (take j below.now)) (slice_index_or below.now j (0, 0)).1 col size (matrix_of joined.now))) }
{
    let mut marks = Vec::with_capacity(alloc, below.len())?;
    let mut row = 0;
    for (j, cell) in below.iter().enumerate() {
        // The loop's invariant names the place.
        let _at = j;
        let height = cell.1;
        marks.push(mark(joined, row, height, col, size))?;
        row += u32::from(height);
    }
    Ok(marks)
}

/// What a column notes of a part of a matrix: nothing where it is zero.
fn mark(joined: &Block, row: u32, height: u8, col: u32, width: u8) -> Option<Mark>
    requires rows { row + height ≤ joined.now.rows }
    requires cols { col + width ≤ joined.now.cols }
    ensures { result ≡ mark_of height width (window row height col width (matrix_of joined.now)) }
{
    if is_zero_at(joined, row, height, col, width) {
        None
    } else {
        Some(Mark {
            flagged: false,
            square: height == width,
        })
    }
}

/// Whether a block of so many rows and columns is the part of a matrix from `row` and `col` on.
pub fn is_same_at(b: &Block, joined: &Block, row: u32, height: u8, col: u32, width: u8) -> bool
    requires height { b.now.rows ≡ height }
    requires width { b.now.cols ≡ width }
    requires rows { row + height ≤ joined.now.rows }
    requires cols { col + width ≤ joined.now.cols }
    ensures { IsTrue result ↔ (matrix_of b.now ≡ window row height col width (matrix_of joined.now)) }
{
    for i in 0..u32::from(height) {
        if !same_entries(b.row(i), row_part(joined, row + i, col, width)) {
            return false;
        }
    }
    true
}

/// Whether two lists of entries are equal.
fn same_entries(a: &[u8], b: &[u8]) -> bool
    ensures { IsTrue result ↔ (a.now ≡ b.now) }
{
    a == b
}
