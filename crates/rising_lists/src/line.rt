ghost use Rattle.std.specs.Prelude.{◌≡◌, ◌==◌, ◌<◌, ◌≤◌, ◌*◌, ℕ, [], None, Some, if◌then◌else◌, length, replicate};
ghost use Rattle.std.specs.Prelude.{slice_index, option_copied, option_map, map, OnOk, OnErr, IfOk};
ghost use Rattle.rising_lists.specs.Rising.{IsRising, IsLine, has, keys, look, entry, entry_after, nonzero_entry};
ghost use Rattle.rising_lists.specs.Rising.{value_if, strided};

use crate::duplicate::Duplicate;
use crate::merges::{
    append, is_listed, merge_entries, merge_value, next_cell, next_value, past, past_listed,
};
use crate::places::{count_below, place};
use std::alloc::{AllocError as NoMemory, Global};
use std::marker::Model;

/// Values by cell: cells in rising order, and beside each its value.
#[derive(Debug, Drop)]
pub struct Line<T> {
    cells: Vec<u32>,
    values: Vec<T>,
}

impl<T> Model for Line<T> {
    ghost use Rattle.rising_lists.specs.Rising.{ByCell, IsLine};

    ghost Value = { ByCell T };

    ghost view = { λ l. record { cells = l.cells.items; values = l.values.items } };

    ghost invariant = { λ l. IsLine {A = T} (record { cells = l.cells.items; values = l.values.items }) };
}

impl<T> Line<T> {
    /// No cells; takes no memory.
    pub fn new(alloc: Global) -> Line<T>
        ensures { result ≡ record { cells = []; values = [] } }
    {
        Line {
            cells: Vec::new(alloc),
            values: Vec::new(alloc),
        }
    }

    /// The values at the cells, in order.
    pub fn of_values(cells: Vec<u32>, values: Vec<T>) -> Line<T>
        requires rising { IsRising cells.items }
        requires full { length values.items ≡ length cells.items }
        ensures { result ≡ record { cells = cells.items; values = values.items } }
    {
        Line { cells, values }
    }

    /// The cells, rising.
    pub fn cells(&self) -> &[u32]
        ensures cells { result.now ≡ self.now.cells }
        ensures line { IsLine self.now }
    {
        &self.cells
    }

    /// The values, in order of cells.
    pub fn values(&self) -> &[T]
        ensures values { result.now ≡ self.now.values }
        ensures line { IsLine self.now }
    {
        &self.values
    }

    /// The value at a cell.
    pub fn get(&self, c: u32) -> Option<&T>
        ensures { option_copied result ≡ entry self.now c }
    {
        match place(&self.cells, c) {
            Some(at) => Some(&self.values[at]),
            None => None,
        }
    }

    /// How many of the cells are below `c`.
    pub fn count_below(&self, c: u32) -> usize
        ensures within { result ≤ length self.now.cells }
        ensures below { (i : ℕ) → i < result → slice_index self.now.cells i < c }
        ensures from { (i : ℕ) → result ≤ i → i < length self.now.cells → c ≤ slice_index self.now.cells i }
    {
        count_below(&self.cells, c)
    }
}

impl<T: Drop> Line<T> {
    /// Puts another value at a cell that has one; does nothing at other cells.
    pub fn put(&mut self, c: u32, value: T)
        ensures { (q : ℕ) → entry self.new q ≡
            (if q == c then option_map (λ _. value) (entry self.old c) else entry self.old q) }
    {
        if let Some(at) = place(&self.cells, c) {
            self.values[at] = value;
        }
    }

    /// Takes a cell out with its value, where it is in.
    pub fn remove(&mut self, c: u32)
        ensures { (q : ℕ) → entry self.new q ≡ (if q == c then None else entry self.old q) }
    {
        if let Some(at) = place(&self.cells, c) {
            self.cells.remove(at);
            let _value = self.values.remove(at);
        }
    }
}

impl<T: Drop> Line<T> {
    /// Puts a value at a cell behind all others: one step, but where a list has to grow. Fails only where memory does, and
    /// then nothing has changed.
    pub fn push(&mut self, c: u32, value: T) -> Result<(), NoMemory>
        requires { (i : ℕ) → i < length self.old.cells → slice_index self.old.cells i < c }
        ensures entries { OnOk result ((q : ℕ)
            → entry self.new q ≡ (if q == c then Some value else entry self.old q)) }
        ensures err { OnErr result (self.new ≡ self.old) }
    {
        self.cells.reserve(1)?;
        self.values.push(value)?;
        self.cells.push(c)?;
        Ok(())
    }
}

impl<T: Duplicate> Line<T> {
    /// The same value at each of these cells.
    pub fn constant(alloc: Global, cells: &[u32], value: &T) -> Result<Line<T>, NoMemory>
        requires { IsRising cells.now }
        ensures cells { IfOk result (λ l. l.cells ≡ cells.now) }
        ensures values { IfOk result (λ l. l.values ≡ replicate (length cells.now) value.now) }
    {
        let mut values = Vec::with_capacity(alloc, cells.len())?;
        for _cell in cells {
            values.push(value.duplicate(alloc)?)?;
        }
        Ok(Line {
            cells: Vec::from_slice(alloc, cells)?,
            values,
        })
    }

    /// An equal line.
    pub fn copy(&self, alloc: Global) -> Result<Line<T>, NoMemory>
        ensures { IfOk result (λ l. l ≡ self.now) }
    {
        let mut values = Vec::with_capacity(alloc, self.values.len())?;
        for value in &self.values {
            values.push(value.duplicate(alloc)?)?;
        }
        Ok(Line {
            cells: Vec::from_slice(alloc, &self.cells)?,
            values,
        })
    }

    /// The line once the listed cells have got fresh values, or none; the others keep what they have.
    ///
    /// Takes one step for each cell of the line and each listed cell.
    pub fn with_fresh(
        &self,
        alloc: Global,
        listed: &[(u32, u8)],
        fresh: Vec<Option<T>>,
    ) -> Result<Line<T>, NoMemory>
        requires rising { IsRising (keys listed.now) }
        requires full { length fresh.items ≡ length listed.now }
        ensures { IfOk result (λ l. (q : ℕ)
            → entry l q ≡ entry_after (keys listed.now) fresh.items (entry self.now q) q) }
    {
        let old = self.cells.as_slice();
        let room = old.len().saturating_add(listed.len());
        let mut cells = Vec::with_capacity(alloc, room)?;
        let mut values = Vec::with_capacity(alloc, room)?;
        let mut left = fresh.into_iter();
        let mut i = 0;
        let mut j = 0;
        while i < old.len() || j < listed.len() {
            let c = next_cell(old, i, listed, j);
            let is_listed = is_listed(listed, j, c);
            let value = next_value(alloc, is_listed, &mut left, &self.values, i)?;
            append(&mut cells, &mut values, c, value)?;
            i = past(old, i, c);
            j = past_listed(listed, j, c);
        }
        Ok(Line { cells, values })
    }
}

impl Line<u8> {
    /// The line once the listed cells have got these entries, or none where the entry is 0; the others keep what they have.
    ///
    /// Takes one step for each cell of the line and each listed cell, and memory only where the spare line has no room.
    pub fn with_entries(
        &self,
        spare: Line<u8>,
        listed: &[(u32, u8)],
        entries: &[u8],
    ) -> Result<Line<u8>, NoMemory>
        requires rising { IsRising (keys listed.now) }
        requires full { length entries.now ≡ length listed.now }
        ensures { IfOk result (λ l. (q : ℕ)
            → entry l q ≡ entry_after (keys listed.now) (map nonzero_entry entries.now) (entry self.now q) q) }
    {
        let old = self.cells();
        let room = old.len() + listed.len();
        let (mut cells, mut values) = spare.with_room(room, 0)?;
        let count = merge_entries(old, self.values(), listed, entries, &mut cells, &mut values);
        cells.truncate(count);
        values.truncate(count);
        Ok(Line { cells, values })
    }
}

impl<T: Copy + Drop> Line<T> {
    /// The line once the listed cells have got this value, or none where their entry is 0; the others keep what they have.
    /// The entry of the first is at the place `start`, and that of each next one `step` places on.
    ///
    /// Takes one step for each cell of the line and each listed cell, and memory only where the spare line has no room.
    pub fn with_value(
        &self,
        spare: Line<T>,
        listed: &[(u32, u8)],
        value: T,
        entries: &[u8],
        start: usize,
        step: usize,
    ) -> Result<Line<T>, NoMemory>
        requires rising { IsRising (keys listed.now) }
        requires start { start < step }
        requires within { length listed.now * step ≤ length entries.now }
        ensures { IfOk result (λ l. (q : ℕ) → entry l q ≡ entry_after (keys listed.now)
            (map (value_if value) (strided entries.now start step (length listed.now))) (entry self.now q) q) }
    {
        let old = self.cells();
        let room = old.len() + listed.len();
        let (mut cells, mut values) = spare.with_room(room, value)?;
        let count = merge_value(
            old,
            self.values(),
            listed,
            value,
            entries,
            start,
            step,
            &mut cells,
            &mut values,
        );
        cells.truncate(count);
        values.truncate(count);
        Ok(Line { cells, values })
    }
}

impl<T: Copy + Drop> Line<T> {
    /// The lists of a line, with so many members.
    fn with_room(self, count: usize, value: T) -> Result<(Vec<u32>, Vec<T>), NoMemory>
        ensures cells { IfOk result (λ r. length r.0.items ≡ count) }
        ensures values { IfOk result (λ r. length r.1.items ≡ count) }
    {
        let Line {
            mut cells,
            mut values,
        } = self;
        cells.resize(count, 0)?;
        values.resize(count, value)?;
        Ok((cells, values))
    }
}
