ghost use Rattle.std.specs.Prelude.{◌≡◌, ◌<◌, ◌≤◌, ◌==◌, ◌+◌, ℕ, true, false, None, if◌then◌else◌, length, replicate};
ghost use Rattle.std.specs.Prelude.{is_some};
ghost use Rattle.std.specs.Prelude.{option_copied, option_map, IfOk};
ghost use Rattle.rising_lists.specs.Rising.{IsRising, entry};
ghost use Rattle.open_columns.specs.Open.{FirstFrom, AreNoneBelow, first_of};

use crate::mark::First;
use rising_lists::Line;
use std::alloc::{AllocError as NoMemory, Global};
use std::marker::Model;

/// For each of some cells the first open block of its column; and a cell below which no column has one, so that those
/// are not passed again and again.
#[derive(Debug, Drop)]
pub(crate) struct Firsts {
    firsts: Line<First>,
    /// No column of a cell below this one has an open block.
    low: u32,
}

impl Model for Firsts {
    ghost use Rattle.rising_lists.specs.Rising.{ByCell};
    ghost use Rattle.open_columns.specs.declared.mark.First.{First};
    ghost use Rattle.open_columns.specs.Open.{AreNoneBelow};

    ghost Value = { ByCell First };

    ghost view = { λ f. f.firsts };

    ghost invariant = { λ f. AreNoneBelow f.firsts f.low };
}

impl Firsts {
    /// No open block in the column of any of these cells.
    pub(crate) fn of_cells(alloc: Global, cells: &[u32]) -> Result<Firsts, NoMemory>
        requires { IsRising cells.now }
        ensures cells { IfOk result (λ f. f.cells ≡ cells.now) }
        ensures none { IfOk result (λ f. f.values ≡ replicate (length cells.now) (record { cell = None })) }
    {
        let none = First { cell: None };
        Ok(Firsts {
            firsts: Line::constant(alloc, cells, &none)?,
            low: 0,
        })
    }

    /// The same.
    pub(crate) fn copy(&self, alloc: Global) -> Result<Firsts, NoMemory>
        ensures { IfOk result (λ f. f ≡ self.now) }
    {
        Ok(Firsts {
            firsts: self.firsts.copy(alloc)?,
            low: self.low,
        })
    }

    /// What is known of the column of a cell.
    pub(crate) fn get(&self, x: u32) -> Option<&First>
        ensures { option_copied result ≡ entry self.now x }
    {
        self.firsts.get(x)
    }

    /// Puts what is known of the column of a cell; does nothing where it has none.
    pub(crate) fn put(&mut self, x: u32, first: First)
        ensures { (q : ℕ) → entry self.new q ≡
            (if q == x then option_map (λ _. first) (entry self.old x) else entry self.old q) }
    {
        self.low = lower(self.low, x, &first);
        self.firsts.put(x, first);
    }

    /// Passes the columns that have no open block, from the first of which that was not known.
    pub(crate) fn pass(&mut self)
        ensures { self.new ≡ self.old }
    {
        self.low = passed(&self.firsts, self.low);
    }

    /// The first cell after `x` whose column has an open block.
    pub(crate) fn first_after(&self, x: u32) -> Option<u32>
        ensures { FirstFrom (λ s. is_some (first_of (entry self.now s))) (x + 1) result }
    {
        if self.low <= x {
            first_column_after(&self.firsts, x, x)
        } else {
            first_column_after(&self.firsts, x, self.low)
        }
    }
}

/// The first cell after `x` whose column has an open block, where it is known that none has up to `from`.
fn first_column_after(firsts: &Line<First>, x: u32, from: u32) -> Option<u32>
    requires { (c : ℕ) → x < c → c < from → first_of (entry firsts.now c) ≡ None }
    ensures { FirstFrom (λ s. is_some (first_of (entry firsts.now s))) (x + 1) result }
{
    let cells = firsts.cells();
    let values = firsts.values();
    for i in firsts.count_below(from)..cells.len() {
        if cells[i] > x && has_open(&values[i]) {
            return Some(cells[i]);
        }
    }
    None
}

/// Whether a column has an open block.
fn has_open(first: &First) -> bool
    ensures { result ≡ is_some first.now.cell }
{
    first.cell.is_some()
}

/// Whether the column of a cell has an open block.
fn is_known(firsts: &Line<First>, x: u32) -> bool
    ensures { result ≡ is_some (first_of (entry firsts.now x)) }
{
    match firsts.get(x) {
        Some(first) => has_open(first),
        None => false,
    }
}

/// The cell, where its column has an open block and it is the lesser; else the other.
fn lower(low: u32, x: u32, first: &First) -> u32
    ensures low { result ≤ low }
    ensures known { is_some first.now.cell ≡ true → result ≤ x }
{
    if has_open(first) && x < low { x } else { low }
}

/// The first cell from `low` on whose column has an open block; the last of all where there is none.
fn passed(firsts: &Line<First>, low: u32) -> u32
    requires { AreNoneBelow firsts.now low }
    ensures { AreNoneBelow firsts.now result }
{
    if is_known(firsts, low) {
        low
    } else {
        passed_after(firsts, low)
    }
}

/// The same where the column of `low` has none.
fn passed_after(firsts: &Line<First>, low: u32) -> u32
    requires below { AreNoneBelow firsts.now low }
    requires here { is_some (first_of (entry firsts.now low)) ≡ false }
    ensures { AreNoneBelow firsts.now result }
{
    match first_column_after(firsts, low, low) {
        Some(s) => s,
        None => u32::MAX,
    }
}
