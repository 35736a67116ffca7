ghost use Rattle.std.specs.Prelude.{◌≡◌, ◌==◌, ◌&&◌, ℕ, true, [], None, if◌then◌else◌, length, is_some};
ghost use Rattle.std.specs.Prelude.{◌<◌, Some, slice_index, option_copied, unwrap_or, OnOk, OnErr, IfOk};
ghost use Rattle.rising_lists.specs.Rising.{IsRising, has, keys, look, line_of, entry_of};
ghost use Rattle.block_rows.specs.BlockRows.{scalar_block};

use crate::row::Row;
use crate::scalar_blocks::ScalarBlocks;
use dense_blocks::Block;
use rising_lists::{Spares, place};
use std::alloc::{AllocError as NoMemory, Global};
use std::marker::Model;
use std::mem::replace;

/// For each of some cells a row of blocks; the cells are in rising order.
#[derive(Debug, Drop)]
pub struct Rows {
    cells: Vec<u32>,
    rows: Vec<Row>,
    scalars: ScalarBlocks,
}

impl Model for Rows {
    ghost use Rattle.rising_lists.specs.Rising.{ByCell, IsLine};
    ghost use Rattle.dense_blocks.specs.declared.block.Block.{Block};

    ghost Value = { ByCell (ByCell Block) };

    ghost view = { λ r. record { cells = r.cells.items; values = r.rows.items } };

    ghost invariant = { λ r. IsLine {A = ByCell Block} (record { cells = r.cells.items; values = r.rows.items }) };
}

impl Rows {
    /// An empty row for each of these cells.
    pub fn of_cells(alloc: Global, cells: &[u32]) -> Result<Rows, NoMemory>
        requires { IsRising cells.now }
        ensures cells { IfOk result (λ r. r.cells ≡ cells.now) }
        ensures empty { IfOk result (λ r. (c : ℕ) → line_of r c ≡ record { cells = []; values = [] }) }
    {
        let mut rows = Vec::with_capacity(alloc, cells.len())?;
        for _cell in cells {
            rows.push(Row::new(alloc))?;
        }
        Ok(Rows {
            cells: Vec::from_slice(alloc, cells)?,
            rows,
            scalars: ScalarBlocks::all(alloc)?,
        })
    }

    /// The blocks of one entry, which rows lend.
    pub fn scalars(&self) -> &ScalarBlocks {
        &self.scalars
    }

    /// The row of a cell that has one.
    pub fn row(&self, c: u32) -> &Row
        requires { has c self.now.cells ≡ true }
        ensures { result.now ≡ line_of self.now c }
    {
        let at = place(&self.cells, c).unwrap();
        &self.rows[at]
    }

    /// The cells of the row of a cell, rising; none where it has no row.
    pub fn cells(&self, c: u32) -> &[u32]
        ensures rising { IsRising result.now }
        ensures cells { (q : ℕ) → has q result.now ≡ is_some (entry_of self.now c q) }
    {
        match place(&self.cells, c) {
            Some(at) => self.rows[at].cells(),
            None => &[],
        }
    }

    /// The block at a cell of the row of a cell.
    pub fn get(&self, c: u32, q: u32) -> Option<&Block>
        ensures { option_copied result ≡ entry_of self.now c q }
    {
        match place(&self.cells, c) {
            Some(at) => self.rows[at].get(&self.scalars, q),
            None => None,
        }
    }

    /// Puts another row at a cell; does nothing where it has none.
    fn put_row(&mut self, c: u32, row: Row)
        ensures cells { self.new.cells ≡ self.old.cells }
        ensures lines { (k : ℕ) → line_of self.new k ≡
            (if k == c && has c self.old.cells then row else line_of self.old k) }
    {
        if let Some(at) = place(&self.cells, c) {
            self.rows[at] = row;
        }
    }

    /// Leaves the row of a cell empty.
    pub fn clear(&mut self, c: u32)
        ensures cells { self.new.cells ≡ self.old.cells }
        ensures entries { (k p : ℕ) → entry_of self.new k p ≡ (if k == c then None else entry_of self.old k p) }
    {
        let alloc = *self.cells.allocator();
        self.put_row(c, Row::new(alloc));
    }

    /// Takes a cell out of the row of a cell.
    fn remove(&mut self, c: u32, q: u32)
        ensures cells { self.new.cells ≡ self.old.cells }
        ensures entries { (k p : ℕ) → entry_of self.new k p ≡
            (if k == c && p == q then None else entry_of self.old k p) }
    {
        if let Some(at) = place(&self.cells, c) {
            let row = &mut self.rows[at];
            row.remove(q);
        }
    }

    /// Puts a block of one entry into the row of a cell, at a cell behind all others of it: as [`Row::push_entry`] does.
    pub fn push_entry(&mut self, c: u32, q: u32, value: u8) -> Result<(), NoMemory>
        requires row { has c self.old.cells ≡ true }
        requires behind { (i : ℕ) → i < length (line_of self.old c).cells
            → slice_index (line_of self.old c).cells i < q }
        ensures cells { OnOk result (self.new.cells ≡ self.old.cells) }
        ensures entries { OnOk result ((k p : ℕ) → entry_of self.new k p ≡
            (if k == c && p == q then Some (scalar_block value) else entry_of self.old k p)) }
        ensures err { OnErr result (self.new ≡ self.old) }
    {
        let at = place(&self.cells, c).unwrap();
        let row = &mut self.rows[at];
        row.push_entry(q, value)?;
        Ok(())
    }

    /// Takes a cell out of the rows of the listed cells.
    pub fn remove_all(&mut self, listed: &[u32], q: u32)
        ensures cells { self.new.cells ≡ self.old.cells }
        ensures entries { (k p : ℕ) → entry_of self.new k p ≡
            (if has k listed.now && p == q then None else entry_of self.old k p) }
    {
        for c in listed {
            self.remove(*c, q);
        }
    }

    /// Puts another row at a cell that has one, and gives that.
    fn replace_row(&mut self, c: u32, row: Row) -> Row
        requires { has c self.old.cells ≡ true }
        ensures cells { self.new.cells ≡ self.old.cells }
        ensures lines { (k : ℕ) → line_of self.new k ≡ (if k == c then row else line_of self.old k) }
    {
        let at = place(&self.cells, c).unwrap();
        replace(&mut self.rows[at], row)
    }

    /// Puts other rows at the listed cells, one for each; keeps the lines of those that stood there.
    pub fn install(&mut self, listed: &[(u32, u8)], mut rows: Vec<Row>, spares: &mut Spares<u8>)
        requires full { length rows.items ≡ length listed.now }
        requires within { (c : ℕ) → has c (keys listed.now) ≡ true → has c self.old.cells ≡ true }
        ensures cells { self.new.cells ≡ self.old.cells }
        ensures lines { (k : ℕ) → line_of self.new k ≡
            unwrap_or (look k (keys listed.now) rows.items) (line_of self.old k) }
    {
        while let Some(row) = rows.pop() {
            let at = rows.as_slice().len();
            let old = self.replace_row(listed[at].0, row);
            spares.keep(old.into_spare());
        }
    }

    /// Equal rows.
    pub fn copy(&self, alloc: Global) -> Result<Rows, NoMemory>
        ensures { IfOk result (λ r. r ≡ self.now) }
    {
        let mut rows = Vec::with_capacity(alloc, self.rows.len())?;
        for row in &self.rows {
            rows.push(row.copy(alloc)?)?;
        }
        Ok(Rows {
            cells: Vec::from_slice(alloc, &self.cells)?,
            rows,
            scalars: ScalarBlocks::all(alloc)?,
        })
    }
}
