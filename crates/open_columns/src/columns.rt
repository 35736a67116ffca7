ghost use Rattle.std.specs.Prelude.{◌≡◌, ◌≢◌, ◌==◌, ◌&&◌, ◌+◌, ℕ, true, [], None, Some, if◌then◌else◌, length, is_some};
ghost use Rattle.std.specs.Prelude.{option_copied, option_map, unwrap_or, IfOk, MatchOption};
ghost use Rattle.rising_lists.specs.Rising.{IsRising, has, keys, look, entry, line_of, entry_of};
ghost use Rattle.open_columns.specs.Open.{FirstFrom, FirstPair, NoneBelow, is_open, first_of, with_mark_flag};

use crate::firsts::Firsts;
use crate::mark::{First, Mark};
use rising_lists::{Line, Lines, Spares};
use std::alloc::{AllocError as NoMemory, Global};
use std::marker::Model;

/// The columns: for each of some cells the marks of the blocks that come from it, and the first of these that is open,
/// that is, square and without a flag.
#[derive(Debug, Drop)]
pub struct Columns {
    marks: Lines<Mark>,
    firsts: Firsts,
}

impl Model for Columns {
    ghost use Rattle.rising_lists.specs.Rising.{ByCell};
    ghost use Rattle.open_columns.specs.declared.mark.Mark.{Mark};
    ghost use Rattle.open_columns.specs.Open.{AreFirst};

    ghost Value = { ByCell (ByCell Mark) };

    ghost view = { λ c. c.marks };

    ghost invariant = { λ c. AreFirst c.marks c.firsts };
}

impl Columns {
    /// An empty column for each of these cells.
    pub fn of_cells(alloc: Global, cells: &[u32]) -> Result<Columns, NoMemory>
        requires { IsRising cells.now }
        ensures cells { IfOk result (λ c. c.cells ≡ cells.now) }
        ensures empty { IfOk result (λ c. (x : ℕ) → line_of c x ≡ record { cells = []; values = [] }) }
    {
        Ok(Columns {
            marks: Lines::of_cells(alloc, cells)?,
            firsts: Firsts::of_cells(alloc, cells)?,
        })
    }

    /// Equal columns.
    pub fn copy(&self, alloc: Global) -> Result<Columns, NoMemory>
        ensures { IfOk result (λ c. c ≡ self.now) }
    {
        Ok(Columns {
            marks: self.marks.copy(alloc)?,
            firsts: self.firsts.copy(alloc)?,
        })
    }

    /// The column of a cell that has one.
    pub fn line(&self, x: u32) -> &Line<Mark>
        requires { has x self.now.cells ≡ true }
        ensures { result.now ≡ line_of self.now x }
    {
        self.marks.line(x)
    }

    /// The cells of the column of a cell, rising; none where it has no column.
    pub fn cells(&self, x: u32) -> &[u32]
        ensures rising { IsRising result.now }
        ensures cells { (t : ℕ) → has t result.now ≡ is_some (entry_of self.now x t) }
    {
        self.marks.cells(x)
    }

    /// The mark at a cell of the column of a cell.
    pub fn get(&self, x: u32, t: u32) -> Option<&Mark>
        ensures { option_copied result ≡ entry_of self.now x t }
    {
        self.marks.get(x, t)
    }

    /// The first cell at or after `from` at which the column of a cell has an open block; one step where it has none.
    pub fn next_open(&self, x: u32, from: u32) -> Option<u32>
        ensures { FirstFrom (λ t. is_open (entry_of self.now x t)) from result }
    {
        match first_of(&self.firsts, x) {
            Some(first) => first_after(&self.marks, x, first, from),
            None => None,
        }
    }

    /// The first open block of the first column after `x` that has one: one search, then one step for each column after
    /// those of which it is noted that none has an open block.
    pub fn first_open_after(&self, x: u32) -> Option<(u32, u32)>
        ensures { FirstPair (λ s t. is_open (entry_of self.now s t)) x result }
    {
        match self.firsts.first_after(x) {
            Some(s) => first_pair(&self.firsts, s),
            None => None,
        }
    }

    /// Sets the flag of a mark; does nothing where none stands.
    pub fn flag(&mut self, x: u32, t: u32)
        ensures cells { self.new.cells ≡ self.old.cells }
        ensures entries { (k p : ℕ) → entry_of self.new k p ≡
            (if k == x && p == t then option_map with_mark_flag (entry_of self.old x t) else entry_of self.old k p) }
    {
        if let Some(mark) = self.marks.get(x, t) {
            let square = mark.square;
            let flagged = Mark {
                flagged: true,
                square,
            };
            self.marks.put(x, t, flagged);
            renew(&mut self.firsts, &self.marks, x);
        }
    }

    /// Puts another column at a cell; does nothing where it has none.
    pub fn put_line(&mut self, x: u32, column: Line<Mark>)
        ensures cells { self.new.cells ≡ self.old.cells }
        ensures lines { (k : ℕ) → line_of self.new k ≡
            (if k == x && has x self.old.cells then column else line_of self.old k) }
    {
        let first = first_from(&column, 0);
        self.marks.put_line(x, column);
        self.firsts.put(x, First { cell: first });
    }

    /// Leaves the column of a cell empty.
    pub fn clear(&mut self, x: u32)
        ensures cells { self.new.cells ≡ self.old.cells }
        ensures entries { (k p : ℕ) → entry_of self.new k p ≡ (if k == x then None else entry_of self.old k p) }
    {
        self.marks.clear(x);
        self.firsts.put(x, First { cell: None });
        self.firsts.pass();
    }

    /// Takes a cell out of the column of a cell.
    fn remove(&mut self, x: u32, t: u32)
        ensures cells { self.new.cells ≡ self.old.cells }
        ensures entries { (k p : ℕ) → entry_of self.new k p ≡
            (if k == x && p == t then None else entry_of self.old k p) }
    {
        self.marks.remove(x, t);
        renew(&mut self.firsts, &self.marks, x);
    }

    /// Takes a cell out of the columns of the listed cells.
    pub fn remove_all(&mut self, listed: &[u32], t: u32)
        ensures cells { self.new.cells ≡ self.old.cells }
        ensures entries { (k p : ℕ) → entry_of self.new k p ≡
            (if has k listed.now && p == t then None else entry_of self.old k p) }
    {
        for x in listed {
            self.remove(*x, t);
        }
    }

    /// Puts another column at a cell that has one, and gives that.
    fn replace_line(&mut self, x: u32, column: Line<Mark>) -> Line<Mark>
        requires { has x self.old.cells ≡ true }
        ensures cells { self.new.cells ≡ self.old.cells }
        ensures lines { (k : ℕ) → line_of self.new k ≡ (if k == x then column else line_of self.old k) }
    {
        let open = first_from(&column, 0);
        let old = self.marks.replace_line(x, column);
        self.firsts.put(x, First { cell: open });
        old
    }

    /// Puts other columns at the listed cells, one for each; keeps those that stood there.
    pub fn install(
        &mut self,
        listed: &[(u32, u8)],
        mut columns: Vec<Line<Mark>>,
        spares: &mut Spares<Mark>,
    )
        requires full { length columns.items ≡ length listed.now }
        requires within { (c : ℕ) → has c (keys listed.now) ≡ true → has c self.old.cells ≡ true }
        ensures cells { self.new.cells ≡ self.old.cells }
        ensures lines { (k : ℕ) → line_of self.new k ≡
            unwrap_or (look k (keys listed.now) columns.items) (line_of self.old k) }
    {
        while let Some(column) = columns.pop() {
            let at = columns.as_slice().len();
            let old = self.replace_line(listed[at].0, column);
            spares.keep(old);
        }
    }
}

/// The cell of the first open block of a column.
fn first_of(firsts: &Firsts, x: u32) -> Option<u32>
    ensures { result ≡ first_of (entry firsts.now x) }
{
    match firsts.get(x) {
        Some(first) => first.cell,
        None => None,
    }
}

/// The cell and that of the first open block of its column.
fn first_pair(firsts: &Firsts, s: u32) -> Option<(u32, u32)>
    ensures { MatchOption result (first_of (entry firsts.now s) ≡ None)
        (λ p. (p.0 ≡ s) × (first_of (entry firsts.now s) ≡ Some p.1)) }
{
    match first_of(firsts, s) {
        Some(t) => Some((s, t)),
        None => None,
    }
}

/// Whether a block that is noted so is open.
fn is_open(mark: &Mark) -> bool
    ensures { result ≡ is_open (Some mark.now) }
{
    mark.square && !mark.flagged
}

/// The first cell at or after `from` at which a column has an open block.
fn first_from(column: &Line<Mark>, from: u32) -> Option<u32>
    ensures { FirstFrom (λ t. is_open (entry column.now t)) from result }
{
    let cells = column.cells();
    let marks = column.values();
    for i in column.count_below(from)..cells.len() {
        if is_open(&marks[i]) {
            return Some(cells[i]);
        }
    }
    None
}

/// The same in the column of a cell.
fn first_in(marks: &Lines<Mark>, x: u32, from: u32) -> Option<u32>
    ensures { FirstFrom (λ t. is_open (entry_of marks.now x t)) from result }
{
    match marks.find_line(x) {
        Some(column) => first_from(column, from),
        None => None,
    }
}

/// The same where the first of all is known.
fn first_after(marks: &Lines<Mark>, x: u32, first: u32, from: u32) -> Option<u32>
    requires { FirstFrom (λ t. is_open (entry_of marks.now x t)) 0 (Some first) }
    ensures { FirstFrom (λ t. is_open (entry_of marks.now x t)) from result }
{
    if first >= from {
        Some(first)
    } else {
        first_in(marks, x, from)
    }
}

/// Looks again for the first open block of a column, from the one that was the first.
fn renew(firsts: &mut Firsts, marks: &Lines<Mark>, x: u32)
    requires { NoneBelow (λ t. is_open (entry_of marks.now x t)) (first_of (entry firsts.old x)) }
    ensures noted { (k : ℕ) → is_some (entry firsts.new k) ≡ is_some (entry firsts.old k) }
    ensures others { (k : ℕ) → k ≢ x → first_of (entry firsts.new k) ≡ first_of (entry firsts.old k) }
    ensures first { FirstFrom (λ t. is_open (entry_of marks.now x t)) 0 (first_of (entry firsts.new x)) }
{
    if let Some(was) = first_of(firsts, x) {
        let first = first_in(marks, x, was);
        firsts.put(x, First { cell: first });
    }
}
