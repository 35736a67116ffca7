ghost use Rattle.std.specs.Prelude.{◌≡◌, ◌<◌, ◌≤◌, ◌+◌, ◌++◌, ◌↔◌, ℕ, Some, length, slice_index, option_map, OnOk};
ghost use Rattle.std.specs.Prelude.{IsTrue, All};
ghost use Rattle.dense_blocks.specs.Blocks.{matrix_of};
ghost use Rattle.rising_lists.specs.Rising.{IsRising, keys, entry};
ghost use Rattle.block_rows.specs.BlockRows.{scalar_block};
ghost use Rattle.block_sparse.specs.Grids.{width, window};
ghost use Rattle.block_grids.specs.Joined.{grid_block, scalar_row, entry_row, AreScalars, IsSameScalar, IsSameEntry};

use crate::grids::place_from;
use block_sparse::{is_zero_at, scalar_at};
use dense_blocks::{Block, Entries};
use rising_lists::Line;
use std::alloc::AllocError as NoMemory;

/// Adds a row of the joined matrix at the end, where each block has one entry; without memory some entries may have
/// been added.
pub(crate) fn push_entries(
    entries: &mut Entries,
    line: &Line<u8>,
    left: &[(u32, u8)],
) -> Result<(), NoMemory>
    requires { IsRising (keys left.now) }
    ensures { OnOk result (entries.new ≡ entries.old ++ entry_row line.now left.now) }
{
    let mut at = 0;
    for cell in left {
        let (entry, next) = entry_from(line, at, cell.0);
        push_entry(entries, entry, cell.1)?;
        at = next;
    }
    Ok(())
}

/// Adds the entry, or `width` zeros, at the end; without memory some entries may have been added.
fn push_entry(entries: &mut Entries, entry: Option<u8>, width: u8) -> Result<(), NoMemory>
    ensures { OnOk result (entries.new ≡ entries.old ++ scalar_row entry width) }
{
    match entry {
        Some(e) => entries.push(e),
        None if width == 1 => entries.push(0),
        None => entries.push_zeros(width as usize),
    }
}

/// How many of the first listed cells, one after another, have the parts of some rows of a matrix in a row whose blocks
/// have one entry each.
pub(crate) fn count_same_entries(
    line: &Line<u8>,
    left: &[(u32, u8)],
    end: usize,
    joined: &Block,
    row: u32,
    height: u8,
) -> usize
    requires rising { IsRising (keys left.now) }
    requires sizes { All (λ l. 1 ≤ l.1) left.now }
    requires scalars { AreScalars line.now height left.now }
    requires within { end ≤ length left.now }
    requires rows { row + height ≤ joined.now.rows }
    requires cols { width left.now ≤ joined.now.cols }
    ensures within { result ≤ end }
    ensures same { (i : ℕ) → i < result → IsSameScalar line.now left.now (matrix_of joined.now) row height i }
    ensures other { result < end → IsSameScalar line.now left.now (matrix_of joined.now) row height result → ⊥ }
{
    // Then each cell has size 1.
    if height == 1 && joined.cols as usize == left.len() {
        count_same_scalars(line, left, end, joined.row(row))
    } else {
        count_same_parts(line, left, end, joined, row, height)
    }
}

/// The same for one row of a matrix and cells of size 1.
fn count_same_scalars(line: &Line<u8>, left: &[(u32, u8)], end: usize, there: &[u8]) -> usize
    requires rising { IsRising (keys left.now) }
    requires within { end ≤ length left.now }
    requires long { end ≤ length there.now }
    ensures within { result ≤ end }
    ensures same { (i : ℕ) → i < result → IsSameEntry line.now left.now there.now i }
    ensures other { result < end → IsSameEntry line.now left.now there.now result → ⊥ }
{
    let mut at = 0;
    for i in 0..end {
        let (entry, next) = entry_from(line, at, left[i].0);
        if there[i] != entry.unwrap_or(0) {
            return i;
        }
        at = next;
    }
    end
}

/// The same for cells of any size.
fn count_same_parts(
    line: &Line<u8>,
    left: &[(u32, u8)],
    end: usize,
    joined: &Block,
    row: u32,
    height: u8,
) -> usize
    requires rising { IsRising (keys left.now) }
    requires scalars { AreScalars line.now height left.now }
    requires within { end ≤ length left.now }
    requires rows { row + height ≤ joined.now.rows }
    requires cols { width left.now ≤ joined.now.cols }
    ensures within { result ≤ end }
    ensures same { (i : ℕ) → i < result → IsSameScalar line.now left.now (matrix_of joined.now) row height i }
    ensures other { result < end → IsSameScalar line.now left.now (matrix_of joined.now) row height result → ⊥ }
{
    let mut at = 0;
    let mut col = 0;
    for i in 0..end {
        let cell = left[i];
        let (entry, next) = entry_from(line, at, cell.0);
        if !is_scalar(entry, joined, row, height, col, cell.1) {
            return i;
        }
        at = next;
        col += u32::from(cell.1);
    }
    end
}

/// Whether a part of a matrix is the entry, or zero where there is none.
fn is_scalar(entry: Option<u8>, joined: &Block, row: u32, height: u8, col: u32, width: u8) -> bool
    requires scalar { (e : ℕ) → entry ≡ Some e → (height ≡ 1) × (width ≡ 1) }
    requires rows { row + height ≤ joined.now.rows }
    requires cols { col + width ≤ joined.now.cols }
    ensures { IsTrue result ↔ (window row height col width (matrix_of joined.now)
        ≡ grid_block (option_map scalar_block entry) height width) }
{
    match entry {
        Some(e) => scalar_at(joined, row, col) == e,
        None => is_zero_at(joined, row, height, col, width),
    }
}

/// The entry at `c`, where the cells before `at` are less, and the place after the cells up to `c`.
fn entry_from(line: &Line<u8>, at: usize, c: u32) -> (Option<u8>, usize)
    requires within { at ≤ length line.now.cells }
    requires passed { (i : ℕ) → i < at → slice_index line.now.cells i < c }
    ensures entry { result.0 ≡ entry line.now c }
    ensures within { result.1 ≤ length line.now.cells }
    ensures passed { (i : ℕ) → i < result.1 → slice_index line.now.cells i ≤ c }
{
    let place = place_from(line.cells(), at, c);
    match entry_at(line, place, c) {
        Some(entry) => (Some(entry), place + 1),
        None => (None, place),
    }
}

/// The entry at `c`, where `at` is the first place whose cell is not below `c`.
fn entry_at(line: &Line<u8>, at: usize, c: u32) -> Option<u8>
    requires passed { (i : ℕ) → i < at → slice_index line.now.cells i < c }
    requires here { at < length line.now.cells → c ≤ slice_index line.now.cells at }
    ensures entry { result ≡ entry line.now c }
    ensures place { (e : ℕ) → result ≡ Some e → (at < length line.now.cells) × (slice_index line.now.cells at ≡ c) }
{
    let cells = line.cells();
    let entries = line.values();
    if at < cells.len() && cells[at] == c {
        Some(entries[at])
    } else {
        None
    }
}
