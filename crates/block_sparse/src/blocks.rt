ghost use Rattle.std.specs.Prelude.{◌≡◌, ◌==◌, ◌||◌, ◌&&◌, ◌↔◌, ◌+◌, ◌<◌, ◌≤◌, ℕ};
ghost use Rattle.std.specs.Prelude.{true, false, None, if◌then◌else◌, not, filter, is_some, All, MatchOption, IfOk};
ghost use Rattle.std.specs.Prelude.{IfErr, IfSome, OnOk, OnErr, IsTrue, length, slice_index};
ghost use Rattle.rising_lists.specs.Rising.{IsRising, has, keys, entry_of, line_of};
ghost use Rattle.dense_blocks.specs.Blocks.{matrix_of};
ghost use Rattle.block_complexes.specs.BlockComplexes.{cells, degree_of, size_of, live_size};
ghost use Rattle.block_sparse.specs.StoredBlocks.{FitsPair, IsBetween, StandsAt, block_at, flag_of, with_flag, AreLive};
ghost use Rattle.block_sparse.specs.Grids.{width, part, as_block, AreSized};
ghost use Rattle.open_columns.specs.Open.{FirstFrom, FirstPair};
ghost use Rattle.block_sparse.specs.Candidates.{is_candidate};
ghost use Rattle.block_sparse.specs.Lists.{IsLastEntry, with_block, with_blocks};

use crate::fresh::{fresh_columns, fresh_rows};
use crate::live_cells::{LiveCells, cell_in, cells_of};
use crate::parts::scalar_at;
use block_rows::{Row, Rows, ScalarBlocks};
use dense_blocks::Block;
use open_columns::{Columns, Mark};
use rising_lists::{Line, Spares};
use std::alloc::{AllocError as NoMemory, Global};
use std::marker::Model;

/// A block complex: live cells, each with a degree and a size, and a matrix for each ordered pair of them.
///
/// The cells rise, their degrees are at most 15, their sizes at least 1 and together at most 4,096. Only nonzero blocks
/// take room; they go from a cell to a cell one degree above, and each has a flag. Reading takes no memory.
#[derive(Debug, Drop)]
pub struct Blocks {
    live: LiveCells,
    rows: Rows,
    columns: Columns,
    row_spares: Spares<u8>,
    column_spares: Spares<Mark>,
}

impl Model for Blocks {
    ghost use Rattle.block_sparse.specs.StoredBlocks.{StoredBlocks};
    ghost use Rattle.block_sparse.specs.Invariants.{IsSound};

    ghost Value = { StoredBlocks };

    ghost view = { λ b. record { live = b.live; rows = b.rows; columns = b.columns } };

    ghost invariant = { λ b. IsSound b.live b.rows b.columns };
}

impl Blocks {
    ghost use Rattle.block_sparse.specs.Invariants.{IsSound};

    /// The most coordinates of all cells together.
    pub const MOST: u32 = 4096;

    /// The highest degree of a cell.
    pub const HIGHEST: u8 = 15;

    /// Whether a block complex may have these live cells, each with its degree and its size.
    pub fn may_live(live: &[(u32, u8, u8)]) -> bool
        ensures { IsTrue result ↔ AreLive live.now }
    {
        rises(live) && each_fits(live) && total_fits(live)
    }

    /// The block complex of these live cells, without any block.
    pub fn of_cells(alloc: Global, live: &[(u32, u8, u8)]) -> Result<Blocks, NoMemory>
        requires { AreLive live.now }
        ensures live { IfOk result (λ b. b.live ≡ live.now) }
        ensures zero { IfOk result (λ b. (s t : ℕ) → block_at b s t ≡ None) }
    {
        let cells = cells_of(alloc, live)?;
        Ok(Blocks {
            live: LiveCells::of(alloc, live)?,
            rows: Rows::of_cells(alloc, &cells)?,
            columns: Columns::of_cells(alloc, &cells)?,
            row_spares: Spares::new(alloc),
            column_spares: Spares::new(alloc),
        })
    }

    /// An equal block complex, flags included.
    pub fn copy(&self, alloc: Global) -> Result<Blocks, NoMemory>
        ensures { IfOk result (λ b. b ≡ self.now) }
    {
        Ok(Blocks {
            live: self.live.copy(alloc)?,
            rows: self.rows.copy(alloc)?,
            columns: self.columns.copy(alloc)?,
            row_spares: Spares::new(alloc),
            column_spares: Spares::new(alloc),
        })
    }

    /// The live cells, each with its degree and its size, rising by cell.
    pub fn live(&self) -> &[(u32, u8, u8)]
        ensures live { result.now ≡ self.now.live }
        ensures live_cells { AreLive self.now.live }
        ensures sound { IsSound self.now.live self.now.rows self.now.columns }
    {
        self.live.as_slice()
    }

    /// How many coordinates the cell has; 0 for a cell that is not live.
    pub fn size(&self, c: u32) -> u32
        ensures { result ≡ size_of self.now.live c }
    {
        u32::from(self.live.size(c))
    }

    /// The cell with its size, as joined matrices list their cells; size 0 for a cell that is not live.
    pub fn cell_and_size(&self, c: u32) -> (u32, u8)
        ensures { result ≡ (c, size_of self.now.live c) }
    {
        (c, self.live.size(c))
    }

    /// The block from `s` to `t`; none exactly where no nonzero block stands there.
    pub fn get(&self, s: u32, t: u32) -> Option<&Block>
        ensures { MatchOption result (block_at self.now s t ≡ None) (λ b. StandsAt self.now s t b.now) }
    {
        self.rows.get(t, s)
    }

    /// Whether a block stands from `s` to `t` and has its flag set.
    pub fn has_flag(&self, s: u32, t: u32) -> bool
        ensures { result ≡ flag_of (block_at self.now s t) }
    {
        match self.columns.get(s, t) {
            Some(mark) => mark.flagged,
            None => false,
        }
    }

    /// The nonzero blocks that go to the live cell `y`, by the cells that they come from.
    pub fn line(&self, y: u32) -> &Row
        requires { has y (cells self.now.live) ≡ true }
        ensures { result.now ≡ line_of self.now.rows y }
    {
        self.rows.row(y)
    }

    /// The blocks of one entry, which rows lend.
    pub fn scalars(&self) -> &ScalarBlocks {
        self.rows.scalars()
    }

    /// The cells from which a nonzero block goes to the cell `y`, rising; none if `y` is not live.
    pub fn row(&self, y: u32) -> &[u32]
        ensures rising { IsRising result.now }
        ensures cells { (s : ℕ) → has s result.now ≡ is_some (block_at self.now s y) }
        ensures blocks { (s : ℕ) → has s result.now ≡ true → IsBetween self.now s y }
    {
        self.rows.cells(y)
    }

    /// The cells to which a nonzero block goes from the cell `x`, rising; none if `x` is not live.
    pub fn column(&self, x: u32) -> &[u32]
        ensures rising { IsRising result.now }
        ensures cells { (t : ℕ) → has t result.now ≡ is_some (block_at self.now x t) }
        ensures blocks { (t : ℕ) → has t result.now ≡ true → IsBetween self.now x t }
    {
        self.columns.cells(x)
    }

    /// The first cell `t` at or after `from` to which a square block without a flag goes from the cell `x`; none
    /// exactly where there is no such cell.
    ///
    /// Takes one step where none goes from `x`, or the first of all at or after `from`; else one for each block that it
    /// passes.
    pub fn next_open(&self, x: u32, from: u32) -> Option<u32>
        ensures { FirstFrom (λ t. is_candidate self.now x t) from result }
    {
        self.columns.next_open(x, from)
    }

    /// The first square block without a flag that comes from a cell after `x`: the cell that it comes from, and the
    /// first to which one goes from there; none exactly where there is no such block.
    ///
    /// Takes one search, and one step for each cell that it passes.
    pub fn first_open_after(&self, x: u32) -> Option<(u32, u32)>
        ensures { FirstPair (is_candidate self.now) x result }
    {
        self.columns.first_open_after(x)
    }

    /// Sets the flag of the block that stands from `s` to `t`.
    pub fn flag(&mut self, s: u32, t: u32)
        requires { is_some (block_at self.old s t) ≡ true }
        ensures live { self.new.live ≡ self.old.live }
        ensures blocks { (p q : ℕ) → block_at self.new p q ≡
            (if p == s && q == t then with_flag (block_at self.old s t) else block_at self.old p q) }
    {
        self.columns.flag(s, t);
    }

    /// Takes the cell and its blocks away; all else stays.
    pub fn remove_cell(&mut self, c: u32)
        ensures live { self.new.live ≡ filter (λ l. not (l.0 == c)) self.old.live }
        ensures blocks { (s t : ℕ) → block_at self.new s t ≡
            (if s == c || t == c then None else block_at self.old s t) }
    {
        self.live.remove(c);
        clear(&mut self.rows, &mut self.columns, c);
    }

    /// Puts the parts of a joined matrix at each pair of a cell on the left and a cell below, without flags; a zero
    /// part leaves no block there. All other blocks stay with their flags.
    ///
    /// Both lists rise and hold live cells with their sizes, the cells below one degree above those on the left; the
    /// matrix has a column for each coordinate of the cells on the left, and a row for each of those below, in order.
    /// Takes one step for each cell listed, for each block in the rows and columns of the cells listed, and for each
    /// entry. Fails only where memory does, and then nothing has changed.
    pub fn set_grid(
        &mut self,
        left: &[(u32, u8)],
        below: &[(u32, u8)],
        joined: &Block,
    ) -> Result<(), NoMemory>
        requires left_rises { IsRising (keys left.now) }
        requires below_rises { IsRising (keys below.now) }
        requires left_sized { AreSized self.old.live left.now }
        requires below_sized { AreSized self.old.live below.now }
        requires degrees { (s t : ℕ) → has s (keys left.now) ≡ true → has t (keys below.now) ≡ true
            → degree_of self.old.live t ≡ degree_of self.old.live s + 1 }
        requires cols { width left.now ≡ joined.now.cols }
        requires rows { width below.now ≡ joined.now.rows }
        ensures live { OnOk result (self.new.live ≡ self.old.live) }
        ensures blocks { OnOk result ((s t : ℕ) → block_at self.new s t ≡
            (if has s (keys left.now) && has t (keys below.now)
            then as_block (part left.now below.now (matrix_of joined.now) s t)
            else block_at self.old s t)) }
        ensures err { OnErr result (self.new ≡ self.old) }
    {
        let alloc = self.live.allocator();
        let row_spares = &mut self.row_spares;
        let column_spares = &mut self.column_spares;
        let rows = fresh_rows(alloc, row_spares, &self.rows, left, below, joined)?;
        let columns = fresh_columns(alloc, column_spares, &self.columns, left, below, joined)?;
        self.rows.install(below, rows, row_spares);
        self.columns.install(left, columns, column_spares);
        Ok(())
    }

    /// Whether the block may be put from `s` to `t`: both are live cells of consecutive degree whose sizes it has.
    pub fn fits(&self, s: u32, t: u32, b: &Block) -> bool
        ensures { IsTrue result ↔ FitsPair self.now.live s t b.now }
    {
        match cell_in(self.live.as_slice(), s) {
            Some(from) => match cell_in(self.live.as_slice(), t) {
                Some(to) => u32::from(to.0) == u32::from(from.0) + 1
                    && b.rows == u32::from(to.1)
                    && b.cols == u32::from(from.1),
                None => false,
            },
            None => false,
        }
    }

    /// Whether each block of the list may be put.
    pub fn all_fit(&self, list: &[(u32, u32, Block)]) -> bool
        ensures { IsTrue result ↔ All (λ m. FitsPair self.now.live m.0 m.1 m.2) list.now }
    {
        list.iter().all(|m| self.fits(m.0, m.1, &m.2))
    }

    /// Puts the block from `s` to `t`, without a flag; a zero block leaves none there.
    ///
    /// Both are live cells of consecutive degree whose sizes the block has. Fails only where memory does: then nothing
    /// has changed, and the block comes back.
    pub fn set(&mut self, s: u32, t: u32, b: Block) -> Result<(), (Block, NoMemory)>
        requires { FitsPair self.old.live s t b }
        ensures live { OnOk result (self.new.live ≡ self.old.live) }
        ensures blocks { OnOk result ((p q : ℕ)
            → block_at self.new p q ≡ with_block (block_at self.old) s t (matrix_of b) p q) }
        ensures err { OnErr result (self.new ≡ self.old) }
        ensures back { IfErr result (λ e. e.0 ≡ b) }
    {
        match self.place(s, t, &b) {
            Ok(()) => Ok(()),
            Err(fault) => Err((b, fault)),
        }
    }

    /// Does what [`Blocks::set`] does for each member of the list in order, whose condition holds for each.
    ///
    /// Takes all memory before the first change, as much as a copy does. Fails only where memory does: then nothing has
    /// changed, and the list comes back.
    pub fn set_all(
        &mut self,
        list: Vec<(u32, u32, Block)>,
    ) -> Result<(), (Vec<(u32, u32, Block)>, NoMemory)>
        requires { All (λ m. FitsPair self.old.live m.0 m.1 m.2) list.items }
        ensures live { OnOk result (self.new.live ≡ self.old.live) }
        ensures blocks { OnOk result ((p q : ℕ)
            → block_at self.new p q ≡ with_blocks (block_at self.old) list.items p q) }
        ensures err { OnErr result (self.new ≡ self.old) }
        ensures back { IfErr result (λ e. e.0.items ≡ list.items) }
    {
        let alloc = self.live.allocator();
        match self.with_all(alloc, &list) {
            Ok(changed) => {
                *self = changed;
                Ok(())
            }
            Err(fault) => Err((list, fault)),
        }
    }

    /// Puts the block from `s` to `t`, as [`Blocks::set`] does.
    fn place(&mut self, s: u32, t: u32, b: &Block) -> Result<(), NoMemory>
        requires { FitsPair self.old.live s t b.now }
        ensures live { OnOk result (self.new.live ≡ self.old.live) }
        ensures blocks { OnOk result ((p q : ℕ)
            → block_at self.new p q ≡ with_block (block_at self.old) s t (matrix_of b.now) p q) }
        ensures err { OnErr result (self.new ≡ self.old) }
    {
        match self.last_entry(s, t, b) {
            Some(entry) => self.push_entry(s, t, entry, b),
            None => self.place_part(s, t, b),
        }
    }

    /// The same for any block.
    fn place_part(&mut self, s: u32, t: u32, b: &Block) -> Result<(), NoMemory>
        requires { FitsPair self.old.live s t b.now }
        ensures live { OnOk result (self.new.live ≡ self.old.live) }
        ensures blocks { OnOk result ((p q : ℕ)
            → block_at self.new p q ≡ with_block (block_at self.old) s t (matrix_of b.now) p q) }
        ensures err { OnErr result (self.new ≡ self.old) }
    {
        let from = self.cell_and_size(s).1;
        let to = self.cell_and_size(t).1;
        self.set_grid(&[(s, from)], &[(t, to)], b)?;
        Ok(())
    }

    /// The entry of a block that has no other, where it is not 0 and the block goes behind all others of its row.
    fn last_entry(&self, s: u32, t: u32, b: &Block) -> Option<u8>
        requires { FitsPair self.now.live s t b.now }
        ensures { IfSome result (IsLastEntry (line_of self.now.rows t).cells s b.now) }
    {
        if b.rows != 1 || b.cols != 1 {
            return None;
        }
        let entry = scalar_at(b, 0, 0);
        if entry != 0 && is_behind(self.line(t).cells(), s) {
            Some(entry)
        } else {
            None
        }
    }

    /// What [`Blocks::set`] does, where the block goes behind all others of its row: no row is made anew.
    fn push_entry(&mut self, s: u32, t: u32, entry: u8, b: &Block) -> Result<(), NoMemory>
        requires fits { FitsPair self.old.live s t b.now }
        requires last { IsLastEntry (line_of self.old.rows t).cells s b.now entry }
        ensures live { OnOk result (self.new.live ≡ self.old.live) }
        ensures blocks { OnOk result ((p q : ℕ)
            → block_at self.new p q ≡ with_block (block_at self.old) s t (matrix_of b.now) p q) }
        ensures err { OnErr result (self.new ≡ self.old) }
    {
        let alloc = self.live.allocator();
        let mark = Mark {
            flagged: false,
            square: true,
        };
        let column = self
            .columns
            .line(s)
            .with_value(Line::new(alloc), &[(t, 1)], mark, &[1], 0, 1)?;
        self.rows.push_entry(t, s, entry)?;
        self.columns.put_line(s, column);
        Ok(())
    }

    /// A copy with each block of the list put in order.
    fn with_all(&self, alloc: Global, list: &[(u32, u32, Block)]) -> Result<Blocks, NoMemory>
        requires { All (λ m. FitsPair self.now.live m.0 m.1 m.2) list.now }
        ensures live { IfOk result (λ r. r.live ≡ self.now.live) }
        ensures blocks { IfOk result (λ r. (p q : ℕ) → block_at r p q ≡ with_blocks (block_at self.now) list.now p q) }
    {
        let mut changed = self.copy(alloc)?;
        for member in list {
            changed.place(member.0, member.1, &member.2)?;
        }
        Ok(changed)
    }
}

/// Takes the blocks of a cell away: those that come from it, and those that go to it.
fn clear(rows: &mut Rows, columns: &mut Columns, c: u32)
    requires { (s t : ℕ) → is_some (entry_of columns.old s t) ≡ is_some (entry_of rows.old t s) }
    ensures row_cells { rows.new.cells ≡ rows.old.cells }
    ensures column_cells { columns.new.cells ≡ columns.old.cells }
    ensures rows { (s t : ℕ) → entry_of rows.new t s ≡ (if s == c || t == c then None else entry_of rows.old t s) }
    ensures columns { (s t : ℕ)
        → entry_of columns.new s t ≡ (if s == c || t == c then None else entry_of columns.old s t) }
{
    columns.remove_all(rows.cells(c), c);
    rows.remove_all(columns.cells(c), c);
    rows.clear(c);
    columns.clear(c);
}

/// Whether a cell is behind all of a rising list.
fn is_behind(cells: &[u32], c: u32) -> bool
    requires { IsRising cells.now }
    ensures { IsTrue result → ((i : ℕ) → i < length cells.now → slice_index cells.now i < c) }
{
    if cells.is_empty() {
        return true;
    }
    cells[cells.len() - 1] < c
}

/// Whether the cells rise.
fn rises(live: &[(u32, u8, u8)]) -> bool
    ensures { IsTrue result ↔ IsRising (cells live.now) }
{
    for i in 1..live.len() {
        if live[i - 1].0 >= live[i].0 {
            return false;
        }
    }
    true
}

/// Whether each cell has a degree and a size that a live cell may have.
fn each_fits(live: &[(u32, u8, u8)]) -> bool
    ensures { IsTrue result ↔ All (λ l. (l.1 ≤ 15) × (1 ≤ l.2)) live.now }
{
    live.iter().all(|l| l.1 <= Blocks::HIGHEST && l.2 >= 1)
}

/// Whether the sizes sum to no more than the most coordinates of a block complex.
fn total_fits(live: &[(u32, u8, u8)]) -> bool
    ensures { IsTrue result ↔ (live_size live.now ≤ 4096) }
{
    let mut total = 0;
    for cell in live {
        let size = u32::from(cell.2);
        if size > Blocks::MOST - total {
            return false;
        }
        total += size;
    }
    true
}
