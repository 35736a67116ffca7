ghost use Rattle.std.specs.Prelude.{◌≡◌, ◌==◌, ◌&&◌, ℕ, true, false, [], None, if◌then◌else◌, length, is_some};
ghost use Rattle.std.specs.Prelude.{option_copied, option_map, unwrap_or, IfOk, MatchOption};
ghost use Rattle.rising_lists.specs.Rising.{IsRising, IsLine, has, keys, look, line_of, entry_of};

use crate::duplicate::Duplicate;
use crate::line::Line;
use crate::places::place;
use std::alloc::{AllocError as NoMemory, Global};
use std::marker::Model;
use std::mem::replace;

/// For each of some cells a line; the cells are in rising order.
#[derive(Debug, Drop)]
pub struct Lines<T> {
    cells: Vec<u32>,
    lines: Vec<Line<T>>,
}

impl<T> Model for Lines<T> {
    ghost use Rattle.rising_lists.specs.Rising.{ByCell, IsLine};

    ghost Value = { ByCell (ByCell T) };

    ghost view = { λ l. record { cells = l.cells.items; values = l.lines.items } };

    ghost invariant = { λ l. IsLine {A = ByCell T} (record { cells = l.cells.items; values = l.lines.items }) };
}

impl<T: Drop> Lines<T> {
    /// An empty line for each of these cells.
    pub fn of_cells(alloc: Global, cells: &[u32]) -> Result<Lines<T>, NoMemory>
        requires { IsRising cells.now }
        ensures cells { IfOk result (λ l. l.cells ≡ cells.now) }
        ensures empty { IfOk result (λ l. (c : ℕ) → line_of l c ≡ record { cells = []; values = [] }) }
    {
        let mut lines = Vec::with_capacity(alloc, cells.len())?;
        for _cell in cells {
            lines.push(Line::new(alloc))?;
        }
        Ok(Lines {
            cells: Vec::from_slice(alloc, cells)?,
            lines,
        })
    }

    /// The line of a cell that has one.
    pub fn line(&self, c: u32) -> &Line<T>
        requires { has c self.now.cells ≡ true }
        ensures { result.now ≡ line_of self.now c }
    {
        let at = place(&self.cells, c).unwrap();
        &self.lines[at]
    }

    /// The line of a cell; none where it has none.
    pub fn find_line(&self, c: u32) -> Option<&Line<T>>
        ensures { MatchOption result (has c self.now.cells ≡ false) (λ l. l.now ≡ line_of self.now c) }
    {
        match place(&self.cells, c) {
            Some(at) => Some(&self.lines[at]),
            None => None,
        }
    }

    /// The cells of the line of a cell, rising; none where it has no line.
    pub fn cells(&self, c: u32) -> &[u32]
        ensures rising { IsRising result.now }
        ensures cells { (q : ℕ) → has q result.now ≡ is_some (entry_of self.now c q) }
    {
        match place(&self.cells, c) {
            Some(at) => self.lines[at].cells(),
            None => &[],
        }
    }

    /// The value at a cell of the line of a cell.
    pub fn get(&self, c: u32, q: u32) -> Option<&T>
        ensures { option_copied result ≡ entry_of self.now c q }
    {
        match place(&self.cells, c) {
            Some(at) => self.lines[at].get(q),
            None => None,
        }
    }

    /// Puts another line at a cell; does nothing where it has none.
    pub fn put_line(&mut self, c: u32, line: Line<T>)
        ensures cells { self.new.cells ≡ self.old.cells }
        ensures lines { (k : ℕ) → line_of self.new k ≡
            (if k == c && has c self.old.cells then line else line_of self.old k) }
    {
        if let Some(at) = place(&self.cells, c) {
            self.lines[at] = line;
        }
    }

    /// Leaves the line of a cell empty.
    pub fn clear(&mut self, c: u32)
        ensures cells { self.new.cells ≡ self.old.cells }
        ensures entries { (k p : ℕ) → entry_of self.new k p ≡ (if k == c then None else entry_of self.old k p) }
    {
        let alloc = *self.cells.allocator();
        self.put_line(c, Line::new(alloc));
    }

    /// Puts another value at a cell of the line of a cell; does nothing where none stands.
    pub fn put(&mut self, c: u32, q: u32, value: T)
        ensures cells { self.new.cells ≡ self.old.cells }
        ensures entries { (k p : ℕ) → entry_of self.new k p ≡
            (if k == c && p == q then option_map (λ _. value) (entry_of self.old c q) else entry_of self.old k p) }
    {
        if let Some(at) = place(&self.cells, c) {
            let line = &mut self.lines[at];
            line.put(q, value);
        }
    }

    /// Takes a cell out of the line of a cell.
    pub fn remove(&mut self, c: u32, q: u32)
        ensures cells { self.new.cells ≡ self.old.cells }
        ensures entries { (k p : ℕ) → entry_of self.new k p ≡
            (if k == c && p == q then None else entry_of self.old k p) }
    {
        if let Some(at) = place(&self.cells, c) {
            let line = &mut self.lines[at];
            line.remove(q);
        }
    }

    /// Takes a cell out of the lines of the listed cells.
    pub fn remove_all(&mut self, listed: &[u32], q: u32)
        ensures cells { self.new.cells ≡ self.old.cells }
        ensures entries { (k p : ℕ) → entry_of self.new k p ≡
            (if has k listed.now && p == q then None else entry_of self.old k p) }
    {
        for c in listed {
            self.remove(*c, q);
        }
    }

    /// Puts another line at a cell that has one, and gives that.
    pub fn replace_line(&mut self, c: u32, line: Line<T>) -> Line<T>
        requires { has c self.old.cells ≡ true }
        ensures cells { self.new.cells ≡ self.old.cells }
        ensures lines { (k : ℕ) → line_of self.new k ≡ (if k == c then line else line_of self.old k) }
    {
        let at = place(&self.cells, c).unwrap();
        replace(&mut self.lines[at], line)
    }

    /// Puts other lines at the listed cells, one for each.
    pub fn install(&mut self, listed: &[(u32, u8)], mut lines: Vec<Line<T>>)
        requires full { length lines.items ≡ length listed.now }
        requires within { (c : ℕ) → has c (keys listed.now) ≡ true → has c self.old.cells ≡ true }
        ensures cells { self.new.cells ≡ self.old.cells }
        ensures lines { (k : ℕ) → line_of self.new k ≡
            unwrap_or (look k (keys listed.now) lines.items) (line_of self.old k) }
    {
        while let Some(line) = lines.pop() {
            let at = lines.as_slice().len();
            self.put_line(listed[at].0, line);
        }
    }
}

impl<T: Duplicate> Lines<T> {
    /// Equal lines.
    pub fn copy(&self, alloc: Global) -> Result<Lines<T>, NoMemory>
        ensures { IfOk result (λ l. l ≡ self.now) }
    {
        let mut lines = Vec::with_capacity(alloc, self.lines.len())?;
        for line in &self.lines {
            lines.push(line.copy(alloc)?)?;
        }
        Ok(Lines {
            cells: Vec::from_slice(alloc, &self.cells)?,
            lines,
        })
    }
}
