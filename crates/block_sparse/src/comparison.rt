ghost use Rattle.std.specs.Prelude.{◌≡◌, ◌≢◌, ◌<◌, ◌≤◌, ◌+◌, ◌↔◌, ℕ, true, length, take, slice_index_or, slice_index};
ghost use Rattle.std.specs.Prelude.{IsTrue};
ghost use Rattle.rising_lists.specs.Rising.{IsRising, has, keys};
ghost use Rattle.dense_blocks.specs.Blocks.{matrix_of};
ghost use Rattle.block_complexes.specs.BlockComplexes.{size_of};
ghost use Rattle.block_sparse.specs.StoredBlocks.{block_at};
ghost use Rattle.block_sparse.specs.Grids.{width, segment, window, columns_of, block_matrix, nonzero, AreSized};

use crate::blocks::Blocks;
use crate::parts::{is_same_at, is_zero_at};
use dense_blocks::Block;

impl Blocks {
    /// Whether the nonzero blocks of row `y` other than at `x` are exactly the nonzero parts of the joined matrix at
    /// the listed cells; at `x` nothing is compared.
    ///
    /// The list rises and holds live cells with their sizes. The matrix has a column for each of their coordinates, in
    /// order, and a row for each coordinate of `y`. Takes a look-up for each cell listed and for each cell of the row.
    pub fn same_row(&self, x: u32, y: u32, left: &[(u32, u8)], joined: &Block) -> bool
        requires rising { IsRising (keys left.now) }
        requires sized { AreSized self.now.live left.now }
        requires rows { joined.now.rows ≡ size_of self.now.live y }
        requires cols { joined.now.cols ≡ width left.now }
        ensures { IsTrue result ↔ ((s : ℕ) → s ≢ x
            → block_matrix (block_at self.now s y) ≡ nonzero (columns_of left.now (matrix_of joined.now) s)) }
    {
        self.is_row(x, y, left, joined) && are_listed(self.row(y), x, left)
    }

    /// Whether the nonzero blocks of column `x` other than at `y` are exactly the nonzero parts of the joined matrix at
    /// the listed cells; at `y` nothing is compared.
    ///
    /// The list rises and holds live cells with their sizes. The matrix has a row for each of their coordinates, in
    /// order, and a column for each coordinate of `x`. Takes a look-up for each cell listed and for each cell of the
    /// column.
    pub fn same_column(&self, x: u32, y: u32, below: &[(u32, u8)], joined: &Block) -> bool
        requires rising { IsRising (keys below.now) }
        requires sized { AreSized self.now.live below.now }
        requires rows { joined.now.rows ≡ width below.now }
        requires cols { joined.now.cols ≡ size_of self.now.live x }
        ensures { IsTrue result ↔ ((t : ℕ) → t ≢ y
            → block_matrix (block_at self.now x t) ≡ nonzero (segment below.now (matrix_of joined.now) t)) }
    {
        self.is_column(x, y, below, joined) && are_listed(self.column(x), y, below)
    }

    /// Whether the block from `s` to `t` is a part of a matrix; where that is zero, whether none stands.
    #[inline]
    fn is_part(
        &self,
        s: u32,
        t: u32,
        joined: &Block,
        row: u32,
        height: u8,
        col: u32,
        width: u8,
    ) -> bool
        requires height { height ≡ size_of self.now.live t }
        requires width { width ≡ size_of self.now.live s }
        requires rows { row + height ≤ joined.now.rows }
        requires cols { col + width ≤ joined.now.cols }
        ensures { IsTrue result ↔ (block_matrix (block_at self.now s t)
            ≡ nonzero (window row height col width (matrix_of joined.now))) }
    {
        match self.get(s, t) {
            Some(b) => is_same_at(b, joined, row, height, col, width),
            None => is_zero_at(joined, row, height, col, width),
        }
    }

    /// Whether the block from `s`, unless that is `x`, to `y` is a part of the first rows of a matrix.
    fn is_row_part(
        &self,
        x: u32,
        s: u32,
        y: u32,
        joined: &Block,
        height: u8,
        col: u32,
        width: u8,
    ) -> bool
        requires height { height ≡ size_of self.now.live y }
        requires width { width ≡ size_of self.now.live s }
        requires rows { height ≤ joined.now.rows }
        requires cols { col + width ≤ joined.now.cols }
        ensures { IsTrue result ↔ (s ≢ x → block_matrix (block_at self.now s y)
            ≡ nonzero (window 0 height col width (matrix_of joined.now))) }
    {
        s == x || self.is_part(s, y, joined, 0, height, col, width)
    }

    /// Whether the block from `x` to `t`, unless that is `y`, is a part of the first columns of a matrix.
    fn is_column_part(
        &self,
        y: u32,
        x: u32,
        t: u32,
        joined: &Block,
        row: u32,
        height: u8,
        width: u8,
    ) -> bool
        requires height { height ≡ size_of self.now.live t }
        requires width { width ≡ size_of self.now.live x }
        requires rows { row + height ≤ joined.now.rows }
        requires cols { width ≤ joined.now.cols }
        ensures { IsTrue result ↔ (t ≢ y → block_matrix (block_at self.now x t)
            ≡ nonzero (window row height 0 width (matrix_of joined.now))) }
    {
        t == y || self.is_part(x, t, joined, row, height, 0, width)
    }

    /// Whether the blocks to `y` from the listed cells other than `x` are the parts of the joined matrix.
    fn is_row(&self, x: u32, y: u32, left: &[(u32, u8)], joined: &Block) -> bool
        requires sized { AreSized self.now.live left.now }
        requires rows { joined.now.rows ≡ size_of self.now.live y }
        requires cols { joined.now.cols ≡ width left.now }
        ensures { IsTrue result ↔ ((i : ℕ) → i < length left.now → (slice_index_or left.now i (0, 0)).0 ≢ x
            → block_matrix (block_at self.now (slice_index_or left.now i (0, 0)).0 y)
            ≡ nonzero (window 0 joined.now.rows (width (take i left.now)) (slice_index_or left.now i (0, 0)).1
            (matrix_of joined.now))) }
    {
        let height = self.cell_and_size(y).1;
        let mut col = 0;
        for (i, cell) in left.iter().enumerate() {
            // The loop's invariant names the place.
            let _at = i;
            let size = cell.1;
            if !self.is_row_part(x, cell.0, y, joined, height, col, size) {
                return false;
            }
            col += u32::from(size);
        }
        true
    }

    /// Whether the blocks from `x` to the listed cells other than `y` are the parts of the joined matrix.
    fn is_column(&self, x: u32, y: u32, below: &[(u32, u8)], joined: &Block) -> bool
        requires sized { AreSized self.now.live below.now }
        requires rows { joined.now.rows ≡ width below.now }
        requires cols { joined.now.cols ≡ size_of self.now.live x }
        ensures { IsTrue result ↔ ((j : ℕ) → j < length below.now → (slice_index_or below.now j (0, 0)).0 ≢ y
            → block_matrix (block_at self.now x (slice_index_or below.now j (0, 0)).0)
            ≡ nonzero (window (width (take j below.now)) (slice_index_or below.now j (0, 0)).1 0 joined.now.cols
            (matrix_of joined.now))) }
    {
        let size = self.cell_and_size(x).1;
        let mut row = 0;
        for (j, cell) in below.iter().enumerate() {
            // The loop's invariant names the place.
            let _at = j;
            let height = cell.1;
            if !self.is_column_part(y, x, cell.0, joined, row, height, size) {
                return false;
            }
            row += u32::from(height);
        }
        true
    }
}

/// Whether each cell but one is listed.
fn are_listed(cells: &[u32], but: u32, listed: &[(u32, u8)]) -> bool
    requires { IsRising (keys listed.now) }
    ensures { IsTrue result ↔ ((q : ℕ) → has q cells.now ≡ true → q ≢ but → has q (keys listed.now) ≡ true) }
{
    for cell in cells {
        if !is_but_or_listed(*cell, but, listed) {
            return false;
        }
    }
    true
}

/// Whether the cell is the one that is left out, or listed.
fn is_but_or_listed(cell: u32, but: u32, listed: &[(u32, u8)]) -> bool
    requires { IsRising (keys listed.now) }
    ensures { IsTrue result ↔ (cell ≢ but → has cell (keys listed.now) ≡ true) }
{
    cell == but || is_listed(listed, cell)
}

/// Whether a rising list of cells with sizes has the cell; one search.
pub fn is_listed(listed: &[(u32, u8)], c: u32) -> bool
    requires { IsRising (keys listed.now) }
    ensures { result ≡ has c (keys listed.now) }
{
    let at = count_listed_below(listed, c);
    at < listed.len() && listed[at].0 == c
}

/// How many of the listed cells are below `c`.
fn count_listed_below(listed: &[(u32, u8)], c: u32) -> usize
    requires { IsRising (keys listed.now) }
    ensures within { result ≤ length listed.now }
    ensures below { (i : ℕ) → i < result → slice_index (keys listed.now) i < c }
    ensures from { (i : ℕ) → result ≤ i → i < length listed.now → c ≤ slice_index (keys listed.now) i }
{
    let mut low = 0;
    let mut high = listed.len();
    while low < high {
        let middle = low + (high - low) / 2;
        if listed[middle].0 < c {
            low = middle + 1;
        } else {
            high = middle;
        }
    }
    low
}
