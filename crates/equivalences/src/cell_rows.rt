ghost use Rattle.std.specs.Prelude.{◌≡◌, ◌≢◌, ◌==◌, ◌+◌, ◌*◌, ◌≤◌, ◌<◌, ℕ, true, [], ◌∷◌, ◌++◌, length, map, take, drop, All, IfOk, OnOk};
ghost use Rattle.std.specs.Prelude.{if◌then◌else◌, slice_index};
ghost use Rattle.std.specs.List.{flat_map};
ghost use Rattle.dense_blocks.specs.Vectors.{AllScalars};
ghost use Rattle.dense_blocks.specs.Matrices.{cut};
ghost use Rattle.dense_blocks.specs.MatrixFacts.{IsMatrix, identity};
ghost use Rattle.dense_blocks.specs.Blocks.{matrix_of};
ghost use Rattle.dense_blocks.specs.BlockFacts.{IsBlock};
ghost use Rattle.rising_lists.specs.Rising.{has, keys};
ghost use Rattle.cochain_vec.specs.Complexes.{coordinates, total_size};
ghost use Rattle.block_complexes.specs.BlockComplexes.{cells, degree_of};
ghost use Rattle.block_complexes.specs.Cochains.{complex_of, of_degree};
ghost use Rattle.block_sparse.specs.StoredBlocks.{complex_in, AreLive};
ghost use Rattle.block_sparse.specs.Grids.{width};
ghost use Rattle.equivalence_laws.specs.Updates.{cell_rows};
ghost use Rattle.equivalences.specs.Rows.{HasShape, cell_rows_of, entries_of, with_product, with_products};

use crate::rows::Rows;
use block_sparse::Blocks;
use dense_blocks::{Block, Entries, Scalars};
use rising_lists::place;
use std::alloc::{AllocError as NoMemory, Global};
use std::marker::Model;
use std::mem::replace;

/// Rows of a matrix for each cell of a block complex.
#[derive(Debug, Drop)]
pub(crate) struct CellRows {
    cells: Vec<u32>,
    rows: Vec<Rows>,
}

impl Model for CellRows {
    ghost use Rattle.std.specs.Prelude.{List, ℕ};
    ghost use Rattle.rising_lists.specs.Rising.{ByCell, IsLine};

    ghost Value = { ByCell (List (List ℕ)) };

    ghost view = { λ r. record { cells = r.cells.items; values = r.rows.items } };

    ghost invariant = { λ r. IsLine {A = List (List ℕ)} (record { cells = r.cells.items; values = r.rows.items }) };
}

impl CellRows {
    /// At each live cell the rows of the identity for its coordinates.
    pub(crate) fn units(alloc: Global, base: &Blocks) -> Result<CellRows, NoMemory>
        ensures cells { IfOk result (λ r. r.cells ≡ cells base.now.live) }
        ensures rows { IfOk result (λ r. (c : ℕ) → has c (cells base.now.live) ≡ true
            → cell_rows_of r c ≡ cell_rows (of_degree (degree_of base.now.live c) base.now.live)
            (identity (coordinates (complex_of (complex_in base.now)) (degree_of base.now.live c))) c) }
    {
        let live = base.live();
        let cells = cells_of(alloc, live)?;
        let sizes = degree_sizes(live);
        let mut rows = Vec::with_capacity(alloc, live.len())?;
        let mut starts = [0; 16];
        for cell in live {
            let degree = usize::from(cell.1);
            let size = usize::from(cell.2);
            rows.push(Rows::units(alloc, size, starts[degree], sizes[degree]))?;
            starts[degree] += size;
        }
        Ok(CellRows { cells, rows })
    }

    /// The rows at a cell, which then has none.
    pub(crate) fn take(&mut self, alloc: Global, c: u32) -> Result<Block, NoMemory>
        requires { has c self.old.cells ≡ true }
        ensures block { IfOk result (λ b. matrix_of b ≡ cell_rows_of self.old c) }
        ensures cells { self.new.cells ≡ self.old.cells }
        ensures rows { OnOk result ((q : ℕ) → q ≢ c → cell_rows_of self.new q ≡ cell_rows_of self.old q) }
    {
        let at = place(&self.cells, c).unwrap();
        let place = &mut self.rows[at];
        let rows = replace(place, Rows::none(alloc));
        let block = rows.block(alloc)?;
        Ok(block)
    }

    /// Leaves a cell no rows.
    pub(crate) fn drop_rows(&mut self, alloc: Global, c: u32)
        requires { has c self.old.cells ≡ true }
        ensures cells { self.new.cells ≡ self.old.cells }
        ensures rows { (q : ℕ) → q ≢ c → cell_rows_of self.new q ≡ cell_rows_of self.old q }
    {
        let at = place(&self.cells, c).unwrap();
        self.rows[at] = Rows::none(alloc);
    }

    /// Adds to the rows at each listed cell its part of the coefficients times the moved rows.
    ///
    /// The coefficients have a row for each coordinate of the listed cells, in order, and a column for each moved row.
    pub(crate) fn add_products<F: Scalars>(
        &mut self,
        alloc: Global,
        f: &F,
        listed: &[(u32, u8)],
        coefficients: &Block,
        moved: &Block,
    ) -> Result<(), NoMemory>
        requires listed { All (λ l. (has l.0 self.old.cells ≡ true) × (1 ≤ l.1)
            × IsMatrix (F.ops f.now) l.1 moved.now.cols (cell_rows_of self.old l.0)) listed.now }
        requires rows { coefficients.now.rows ≡ width listed.now }
        requires columns { coefficients.now.cols ≡ moved.now.rows }
        requires coefficient_scalars { AllScalars (F.ops f.now) coefficients.now.entries }
        requires moved_scalars { AllScalars (F.ops f.now) moved.now.entries }
        ensures cells { self.new.cells ≡ self.old.cells }
        ensures rows { OnOk result ((q : ℕ) → cell_rows_of self.new q ≡ with_products (F.ops f.now) moved.now.cols
            listed.now (matrix_of coefficients.now) (matrix_of moved.now) q (cell_rows_of self.old q)) }
    {
        let mut rest = coefficients.entries.as_slice();
        for cell in listed {
            let (own, later) = rest.split_at(usize::from(cell.1) * coefficients.cols as usize);
            self.add_product(alloc, f, cell.0, own, moved)?;
            rest = later;
        }
        Ok(())
    }

    /// Adds to the rows at a cell the coefficients, given row after row, times the moved rows.
    fn add_product<F: Scalars>(
        &mut self,
        alloc: Global,
        f: &F,
        c: u32,
        coefficients: &[u8],
        moved: &Block,
    ) -> Result<(), NoMemory>
        requires has { has c self.old.cells ≡ true }
        requires rows { IsMatrix (F.ops f.now) (length (cell_rows_of self.old c)) moved.now.cols
            (cell_rows_of self.old c) }
        requires some { 1 ≤ length (cell_rows_of self.old c) }
        requires full { length coefficients.now ≡ length (cell_rows_of self.old c) * moved.now.rows }
        requires coefficient_scalars { AllScalars (F.ops f.now) coefficients.now }
        requires moved_scalars { AllScalars (F.ops f.now) moved.now.entries }
        ensures cells { self.new.cells ≡ self.old.cells }
        ensures rows { OnOk result ((q : ℕ) → cell_rows_of self.new q ≡
            (if q == c then with_product (F.ops f.now) moved.now.cols (cell_rows_of self.old c)
            (cut (length (cell_rows_of self.old c)) moved.now.rows coefficients.now) (matrix_of moved.now)
            else cell_rows_of self.old q)) }
    {
        let at = place(&self.cells, c).unwrap();
        let rows = &mut self.rows[at];
        rows.add_product(alloc, f, coefficients, moved)?;
        Ok(())
    }

    /// The rows at those of the live cells that have degree `k`, one after another, each of `width` entries.
    pub(crate) fn gather(
        &self,
        alloc: Global,
        live: &[(u32, u8, u8)],
        k: u8,
        width: u32,
    ) -> Result<Block, NoMemory>
        requires live { AreLive live.now }
        requires width { width ≤ 4096 }
        requires cells { All (λ l. has l.0 self.now.cells ≡ true) live.now }
        requires shapes { All (λ t. HasShape t.size width (cell_rows_of self.now t.cell)) (of_degree k live.now) }
        ensures { IfOk result (λ b. IsBlock b (total_size (of_degree k live.now)) width
            (flat_map (λ t. cell_rows_of self.now t.cell) (of_degree k live.now))) }
    {
        let rows = total_of(k, live);
        let mut entries = Entries::with_room(alloc, rows as usize * width as usize)?;
        for cell in live {
            self.push_rows(alloc, *cell, k, &mut entries)?;
        }
        Ok(Block {
            rows,
            cols: width,
            entries,
        })
    }

    /// Adds the rows at the cell at the end, if it has degree `k`.
    fn push_rows(
        &self,
        alloc: Global,
        cell: (u32, u8, u8),
        k: u8,
        entries: &mut Entries,
    ) -> Result<(), NoMemory>
        requires { has cell.0 self.now.cells ≡ true }
        ensures { OnOk result (entries.new ≡ entries.old
            ++ flat_map (λ t. entries_of (cell_rows_of self.now t.cell)) (of_degree k (cell ∷ []))) }
    {
        if cell.1 == k {
            self.push_at(alloc, cell.0, entries)?;
        }
        Ok(())
    }

    /// Adds the rows at the cell at the end.
    fn push_at(&self, alloc: Global, c: u32, entries: &mut Entries) -> Result<(), NoMemory>
        requires { has c self.now.cells ≡ true }
        ensures { OnOk result (entries.new ≡ entries.old ++ entries_of (cell_rows_of self.now c)) }
    {
        let at = place(&self.cells, c).unwrap();
        let rows = &self.rows[at];
        let block = rows.block(alloc)?;
        entries.push_all(block.entries.as_slice())?;
        Ok(())
    }
}

/// The cells of a list of live cells.
fn cells_of(alloc: Global, live: &[(u32, u8, u8)]) -> Result<Vec<u32>, NoMemory>
    ensures { IfOk result (λ c. c.items ≡ cells live.now) }
{
    live.iter().map(|l| l.0).collect(alloc)
}

/// How many coordinates the live cells of each degree have.
fn degree_sizes(live: &[(u32, u8, u8)]) -> [usize; 16]
    requires { AreLive live.now }
    ensures { (k : ℕ) → k < 16 → slice_index result k ≡ total_size (of_degree k live.now) }
{
    let mut sizes = [0; 16];
    for cell in live {
        let degree = usize::from(cell.1);
        sizes[degree] += usize::from(cell.2);
    }
    sizes
}

/// How many coordinates the live cells of degree `k` have.
fn total_of(k: u8, live: &[(u32, u8, u8)]) -> u32
    requires { AreLive live.now }
    ensures { result ≡ total_size (of_degree k live.now) }
{
    let mut total = 0;
    for cell in live {
        total += size_at(k, *cell);
    }
    total
}

/// How many coordinates the cell has in degree `k`.
fn size_at(k: u8, cell: (u32, u8, u8)) -> u32
    ensures { result ≡ total_size (of_degree k (cell ∷ [])) }
{
    if cell.1 == k { u32::from(cell.2) } else { 0 }
}
