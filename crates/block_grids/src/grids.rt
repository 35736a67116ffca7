ghost use Rattle.std.specs.Prelude.{◌≡◌, ◌<◌, ◌≤◌, ◌+◌, ◌++◌, ◌↔◌, ℕ, Some, length, slice_index, slice_index_or};
ghost use Rattle.std.specs.Prelude.{option_copied, All, IfOk, OnOk, IsTrue, MatchOption};
ghost use Rattle.dense_blocks.specs.Blocks.{matrix_of};
ghost use Rattle.rising_lists.specs.Rising.{IsRising, has, keys, entry, line_of};
ghost use Rattle.block_complexes.specs.BlockComplexes.{size_of};
ghost use Rattle.block_sparse.specs.Grids.{width, window, AreSized, IsJoined, IsFirstOther};
ghost use Rattle.block_grids.specs.Joined.{AreShaped, grid_block, corner_row, joined_row, joined_rows, joined_entries};
ghost use Rattle.block_grids.specs.Joined.{HaveRow, IsSamePart};

use crate::entries::{count_same_entries, push_entries};
use block_rows::{Row, ScalarBlocks};
use block_sparse::{Blocks, is_same_at, is_zero_at};
use dense_blocks::{Block, Entries};
use std::alloc::{AllocError as NoMemory, Global};

/// The joined matrix of the blocks from the cells on the left to those below; zeros where none stands.
///
/// Both lists rise and hold live cells with their sizes. The matrix has a column for each coordinate of the cells on
/// the left, and a row for each of those below, in order. Takes, for each row, one step for each cell on the left and
/// for each block that goes to the cell of the row, and one for each entry. Fails only where memory does.
pub fn grid(
    alloc: Global,
    b: &Blocks,
    left: &[(u32, u8)],
    below: &[(u32, u8)],
) -> Result<Block, NoMemory>
    requires left_rises { IsRising (keys left.now) }
    requires below_rises { IsRising (keys below.now) }
    requires left_sized { AreSized b.now.live left.now }
    requires below_sized { AreSized b.now.live below.now }
    ensures cols { IfOk result (λ r. r.cols ≡ width left.now) }
    ensures rows { IfOk result (λ r. r.rows ≡ width below.now) }
    ensures parts { IfOk result (λ r. IsJoined b.now left.now below.now (matrix_of r)) }
{
    // Gives the prover what is true of the blocks.
    let _cells = b.live();
    let cols = total(left);
    let rows = total(below);
    let mut entries = Entries::with_room(alloc, rows as usize * cols as usize)?;
    for cell in below {
        push_rows(&mut entries, b.line(cell.0), b.scalars(), left, cell.1)?;
    }
    Ok(Block {
        rows,
        cols,
        entries,
    })
}

/// The first pair of a cell on the left and a cell below at which the part of the matrix is neither the block that
/// stands nor, where none does, zeros; none exactly where it is the joined matrix of the blocks.
///
/// Of two pairs that with the lesser cell on the left is first; of two with one cell on the left, that with the lesser
/// below. Both lists rise and hold live cells with their sizes; the matrix has a column for each coordinate of the
/// cells on the left, and a row for each of those below, in order; columns and rows beyond those are not looked at.
/// Takes no more than one step for each block in the rows of the cells below, for each pair, and for each entry.
pub fn first_other(
    b: &Blocks,
    left: &[(u32, u8)],
    below: &[(u32, u8)],
    joined: &Block,
) -> Option<(u32, u32)>
    requires left_rises { IsRising (keys left.now) }
    requires below_rises { IsRising (keys below.now) }
    requires left_sized { AreSized b.now.live left.now }
    requires below_sized { AreSized b.now.live below.now }
    requires cols { width left.now ≤ joined.now.cols }
    requires rows { width below.now ≤ joined.now.rows }
    ensures { MatchOption result
        (IsJoined b.now left.now below.now (matrix_of joined.now))
        (λ p. IsFirstOther b.now left.now below.now (matrix_of joined.now) p.0 p.1) }
{
    // Gives the prover what is true of the blocks.
    let _cells = b.live();
    let mut end = left.len();
    let mut at = 0;
    let mut row = 0;
    for (j, cell) in below.iter().enumerate() {
        let height = cell.1;
        let same = count_same(b.line(cell.0), b.scalars(), left, end, joined, row, height);
        // Later rows matter only at cells before the first that differs.
        if same < end {
            at = j;
        }
        end = same;
        row += u32::from(height);
    }
    if end < left.len() {
        Some((left[end].0, below[at].0))
    } else {
        None
    }
}

/// How many coordinates the listed cells have.
fn total(listed: &[(u32, u8)]) -> u32
    requires { width listed.now ≤ 4096 }
    ensures { result ≡ width listed.now }
{
    let mut total = 0;
    for cell in listed {
        total += u32::from(cell.1);
    }
    total
}

/// Adds the rows of a cell below at the end; without memory some entries may have been added.
fn push_rows(
    entries: &mut Entries,
    line: &Row,
    scalars: &ScalarBlocks,
    left: &[(u32, u8)],
    height: u8,
) -> Result<(), NoMemory>
    requires rising { IsRising (keys left.now) }
    requires shaped { AreShaped line.now height left.now }
    ensures { OnOk result (entries.new ≡ entries.old ++ joined_rows line.now left.now height) }
{
    for k in 0..u32::from(height) {
        push_row(entries, line, scalars, left, k)?;
    }
    Ok(())
}

/// Adds the row at `k` among those of a cell below at the end; without memory some entries may have been added.
fn push_row(
    entries: &mut Entries,
    line: &Row,
    scalars: &ScalarBlocks,
    left: &[(u32, u8)],
    k: u32,
) -> Result<(), NoMemory>
    requires rising { IsRising (keys left.now) }
    requires row { HaveRow line.now k left.now }
    ensures { OnOk result (entries.new ≡ entries.old ++ joined_row line.now left.now k) }
{
    match line.entries() {
        Some(row) => push_entries(entries, row, left),
        None => push_corners(entries, line, scalars, left, k),
    }
}

/// The same for blocks of any size.
fn push_corners(
    entries: &mut Entries,
    line: &Row,
    scalars: &ScalarBlocks,
    left: &[(u32, u8)],
    k: u32,
) -> Result<(), NoMemory>
    requires rising { IsRising (keys left.now) }
    requires row { HaveRow line.now k left.now }
    ensures { OnOk result (entries.new ≡ entries.old ++ joined_row line.now left.now k) }
{
    let cells = line.cells();
    let mut at = 0;
    for cell in left {
        at = place_from(cells, at, cell.0);
        push_corner(entries, value_at(line, scalars, at, cell.0), k, cell.1)?;
    }
    Ok(())
}

/// Adds the row at `k` of a block, or `width` zeros, at the end; without memory some entries may have been added.
fn push_corner(
    entries: &mut Entries,
    block: Option<&Block>,
    k: u32,
    width: u8,
) -> Result<(), NoMemory>
    requires { (b : _) → option_copied block ≡ Some b → k < b.rows }
    ensures { OnOk result (entries.new ≡ entries.old ++ corner_row (option_copied block.entry) width k) }
{
    match block {
        Some(b) => entries.push_all(b.row(k)),
        None => entries.push_zeros(width as usize),
    }
}

/// How many of the first listed cells, one after another, have the parts of some rows of a matrix in a row of blocks.
fn count_same(
    line: &Row,
    scalars: &ScalarBlocks,
    left: &[(u32, u8)],
    end: usize,
    joined: &Block,
    row: u32,
    height: u8,
) -> usize
    requires rising { IsRising (keys left.now) }
    requires sizes { All (λ l. 1 ≤ l.1) left.now }
    requires shaped { AreShaped line.now height left.now }
    requires within { end ≤ length left.now }
    requires rows { row + height ≤ joined.now.rows }
    requires cols { width left.now ≤ joined.now.cols }
    ensures within { result ≤ end }
    ensures same { (i : ℕ) → i < result → IsSamePart line.now left.now (matrix_of joined.now) row height i }
    ensures other { result < end → IsSamePart line.now left.now (matrix_of joined.now) row height result → ⊥ }
{
    match line.entries() {
        Some(entries) => count_same_entries(entries, left, end, joined, row, height),
        None => count_same_corners(line, scalars, left, end, joined, row, height),
    }
}

/// The same for blocks of any size.
fn count_same_corners(
    line: &Row,
    scalars: &ScalarBlocks,
    left: &[(u32, u8)],
    end: usize,
    joined: &Block,
    row: u32,
    height: u8,
) -> usize
    requires rising { IsRising (keys left.now) }
    requires shaped { AreShaped line.now height left.now }
    requires within { end ≤ length left.now }
    requires rows { row + height ≤ joined.now.rows }
    requires cols { width left.now ≤ joined.now.cols }
    ensures within { result ≤ end }
    ensures same { (i : ℕ) → i < result → IsSamePart line.now left.now (matrix_of joined.now) row height i }
    ensures other { result < end → IsSamePart line.now left.now (matrix_of joined.now) row height result → ⊥ }
{
    let cells = line.cells();
    let mut at = 0;
    let mut col = 0;
    for i in 0..end {
        let cell = left[i];
        at = place_from(cells, at, cell.0);
        if !is_corner(
            value_at(line, scalars, at, cell.0),
            joined,
            row,
            height,
            col,
            cell.1,
        ) {
            return i;
        }
        col += u32::from(cell.1);
    }
    end
}

/// Whether a part of a matrix is the block, or zero where there is none.
fn is_corner(
    block: Option<&Block>,
    joined: &Block,
    row: u32,
    height: u8,
    col: u32,
    width: u8,
) -> bool
    requires shaped { (b : _) → option_copied block ≡ Some b → (b.rows ≡ height) × (b.cols ≡ width) }
    requires rows { row + height ≤ joined.now.rows }
    requires cols { col + width ≤ joined.now.cols }
    ensures { IsTrue result ↔ (window row height col width (matrix_of joined.now)
        ≡ grid_block (option_copied block.entry) height width) }
{
    match block {
        Some(b) => is_same_at(b, joined, row, height, col, width),
        None => is_zero_at(joined, row, height, col, width),
    }
}

/// The first place from `at` on whose cell is not below `c`.
pub(crate) fn place_from(cells: &[u32], at: usize, c: u32) -> usize
    requires { at ≤ length cells.now }
    ensures within { result ≤ length cells.now }
    ensures passed { (i : ℕ) → at ≤ i → i < result → slice_index cells.now i < c }
    ensures here { result < length cells.now → c ≤ slice_index cells.now result }
{
    let mut place = at;
    while place < cells.len() && cells[place] < c {
        place += 1;
    }
    place
}

/// The value of a line at `c`, where `at` is the first place whose cell is not below `c`.
fn value_at<'a>(line: &'a Row, scalars: &'a ScalarBlocks, at: usize, c: u32) -> Option<&'a Block>
    requires passed { (i : ℕ) → i < at → slice_index line.now.cells i < c }
    requires here { at < length line.now.cells → c ≤ slice_index line.now.cells at }
    ensures { option_copied result ≡ entry line.now c }
{
    let cells = line.cells();
    if at < cells.len() && cells[at] == c {
        Some(line.block_at(scalars, at))
    } else {
        None
    }
}
