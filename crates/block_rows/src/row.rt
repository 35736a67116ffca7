ghost use Rattle.std.specs.Prelude.{◌≡◌, ◌==◌, ◌<◌, ℕ, [], None, Some, if◌then◌else◌, length, map, replicate};
ghost use Rattle.std.specs.Prelude.{slice_index};
ghost use Rattle.std.specs.Prelude.{option_copied, option_map, OnOk, OnErr, IfOk, IfSome};
ghost use Rattle.rising_lists.specs.Rising.{IsRising, IsLine, has, keys, entry, entry_after, nonzero_entry};
ghost use Rattle.block_rows.specs.BlockRows.{block_or, scalar_block};

use crate::scalar_blocks::ScalarBlocks;
use dense_blocks::Block;
use rising_lists::Line;
use std::alloc::{AllocError as NoMemory, Global};
use std::marker::Model;

/// Blocks by cell.
///
/// A cell takes five bytes where its block has one entry and came as an entry; other blocks stand beside.
#[derive(Debug, Drop)]
pub struct Row {
    /// For each cell the entry of its block; where a larger block stands, no matter what.
    entries: Line<u8>,
    larger: Line<Block>,
}

impl Model for Row {
    ghost use Rattle.rising_lists.specs.Rising.{ByCell};
    ghost use Rattle.dense_blocks.specs.declared.block.Block.{Block};
    ghost use Rattle.block_rows.specs.BlockRows.{row_of};

    ghost Value = { ByCell Block };

    ghost view = { λ r. row_of r.entries r.larger };
}

impl Row {
    /// No cells; takes no memory.
    pub fn new(alloc: Global) -> Row
        ensures { result ≡ record { cells = []; values = [] } }
    {
        Row {
            entries: Line::new(alloc),
            larger: Line::new(alloc),
        }
    }

    /// The cells, rising.
    pub fn cells(&self) -> &[u32]
        ensures cells { result.now ≡ self.now.cells }
        ensures line { IsLine self.now }
    {
        self.entries.cells()
    }

    /// The block at a cell.
    pub fn get<'a>(&'a self, scalars: &'a ScalarBlocks, c: u32) -> Option<&'a Block>
        ensures { option_copied result ≡ entry self.now c }
    {
        match self.entries.get(c) {
            Some(entry) => Some(larger_or(&self.larger, scalars, c, *entry)),
            None => None,
        }
    }

    /// The block at the cell at a place.
    pub fn block_at<'a>(&'a self, scalars: &'a ScalarBlocks, at: usize) -> &'a Block
        requires { at < length self.now.cells }
        ensures { entry self.now (slice_index self.now.cells at) ≡ Some result.now }
    {
        let cells = self.entries.cells();
        let entries = self.entries.values();
        larger_or(&self.larger, scalars, cells[at], entries[at])
    }

    /// The entries by cell, where no larger block stands beside them.
    pub fn entries(&self) -> Option<&Line<u8>>
        ensures { IfSome result (λ l. (q : ℕ) → entry self.now q ≡ option_map scalar_block (entry l.now q)) }
    {
        if self.larger.cells().is_empty() {
            Some(&self.entries)
        } else {
            None
        }
    }

    /// Takes a cell out with its block, where it is in.
    pub fn remove(&mut self, c: u32)
        ensures { (q : ℕ) → entry self.new q ≡ (if q == c then None else entry self.old q) }
    {
        self.entries.remove(c);
        self.larger.remove(c);
    }

    /// Puts a block of one entry at a cell behind all others: one step, but where a list has to grow. Fails only where
    /// memory does, and then nothing has changed.
    pub fn push_entry(&mut self, c: u32, value: u8) -> Result<(), NoMemory>
        requires { (i : ℕ) → i < length self.old.cells → slice_index self.old.cells i < c }
        ensures entries { OnOk result ((q : ℕ)
            → entry self.new q ≡ (if q == c then Some (scalar_block value) else entry self.old q)) }
        ensures err { OnErr result (self.new ≡ self.old) }
    {
        self.entries.push(c, value)?;
        self.larger.remove(c);
        Ok(())
    }

    /// The entries alone, for their room.
    pub fn into_spare(self) -> Line<u8> {
        self.entries
    }

    /// Equal blocks by cell.
    pub fn copy(&self, alloc: Global) -> Result<Row, NoMemory>
        ensures { IfOk result (λ r. r ≡ self.now) }
    {
        Ok(Row {
            entries: self.entries.copy(alloc)?,
            larger: self.larger.copy(alloc)?,
        })
    }

    /// The row once the listed cells have got blocks of one entry, or none; the others keep what they have.
    ///
    /// Takes one step for each cell of the row and each listed cell.
    pub fn with_entries(
        &self,
        alloc: Global,
        spare: Line<u8>,
        listed: &[(u32, u8)],
        entries: &[u8],
    ) -> Result<Row, NoMemory>
        requires rising { IsRising (keys listed.now) }
        requires full { length entries.now ≡ length listed.now }
        ensures { IfOk result (λ r. (q : ℕ) → entry r q ≡ entry_after (keys listed.now)
            (map (option_map scalar_block) (map nonzero_entry entries.now)) (entry self.now q) q) }
    {
        Ok(Row {
            entries: self.entries.with_entries(spare, listed, entries)?,
            larger: without(alloc, &self.larger, listed)?,
        })
    }

    /// The row once the listed cells have got other blocks, or none; the others keep what they have.
    ///
    /// Takes one step for each cell of the row and each listed cell.
    pub fn with_blocks(
        &self,
        alloc: Global,
        listed: &[(u32, u8)],
        blocks: Vec<Option<Block>>,
    ) -> Result<Row, NoMemory>
        requires rising { IsRising (keys listed.now) }
        requires full { length blocks.items ≡ length listed.now }
        ensures { IfOk result (λ r. (q : ℕ) → entry r q
            ≡ entry_after (keys listed.now) blocks.items (entry self.now q) q) }
    {
        let standing = places_of(alloc, &blocks)?;
        Ok(Row {
            entries: self.entries.with_fresh(alloc, listed, standing)?,
            larger: self.larger.with_fresh(alloc, listed, blocks)?,
        })
    }
}

/// The larger block at a cell; where there is none, that of this entry.
fn larger_or<'a>(larger: &'a Line<Block>, scalars: &'a ScalarBlocks, c: u32, entry: u8) -> &'a Block
    ensures { result.now ≡ block_or larger.now c entry }
{
    match larger.get(c) {
        Some(block) => block,
        None => scalars.block(entry),
    }
}

/// The blocks at other cells than those listed; takes no memory where there are none at all.
fn without(
    alloc: Global,
    blocks: &Line<Block>,
    listed: &[(u32, u8)],
) -> Result<Line<Block>, NoMemory>
    requires { IsRising (keys listed.now) }
    ensures { IfOk result (λ l. (q : ℕ)
        → entry l q ≡ (if has q (keys listed.now) then None else entry blocks.now q)) }
{
    if blocks.cells().is_empty() {
        return Ok(Line::new(alloc));
    }
    let mut none = Vec::with_capacity(alloc, listed.len())?;
    for _cell in listed {
        none.push(None)?;
    }
    let others = blocks.with_fresh(alloc, listed, none)?;
    Ok(others)
}

/// For each block that stands some entry, and none for the others.
fn places_of(alloc: Global, blocks: &[Option<Block>]) -> Result<Vec<Option<u8>>, NoMemory>
    ensures { IfOk result (λ es. es.items ≡ map (option_map (λ _. 1)) blocks.now) }
{
    blocks.iter().map(some_entry).collect(alloc)
}

/// Some entry, if a block stands.
fn some_entry(block: &Option<Block>) -> Option<u8>
    ensures { result ≡ option_map (λ _. 1) block.now }
{
    match block {
        Some(_) => Some(1),
        None => None,
    }
}
