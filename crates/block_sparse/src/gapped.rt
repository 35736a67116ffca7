ghost use Rattle.std.specs.Prelude.{◌≡◌, ◌<◌, length, IfOk};
ghost use Rattle.std.specs.List.{remove};

use std::alloc::{AllocError as NoMemory, Global};
use std::marker::Model;

/// A list of live cells. There may be a gap before the first, so that to take one out moves those before it or those
/// behind it, whichever are fewer.
#[derive(Debug, Drop)]
pub(crate) struct Gapped {
    cells: Vec<(u32, u8, u8)>,
    /// So many places in front are not in use.
    gap: usize,
}

impl Model for Gapped {
    ghost use Rattle.std.specs.Prelude.{ℕ, List, ◌≤◌, length, drop};

    ghost Value = { List (ℕ × ℕ × ℕ) };

    ghost view = { λ g. drop g.gap g.cells.items };

    ghost invariant = { λ g. g.gap ≤ length g.cells.items };
}

impl Gapped {
    /// These cells.
    pub(crate) fn of(alloc: Global, live: &[(u32, u8, u8)]) -> Result<Gapped, NoMemory>
        ensures { IfOk result (λ g. g ≡ live.now) }
    {
        Ok(Gapped {
            cells: Vec::from_slice(alloc, live)?,
            gap: 0,
        })
    }

    /// What gives them their memory.
    pub(crate) fn allocator(&self) -> Global {
        *self.cells.allocator()
    }

    /// The cells, in order.
    pub(crate) fn as_slice(&self) -> &[(u32, u8, u8)]
        ensures { result.now ≡ self.now }
    {
        &self.cells[self.gap..]
    }

    /// Takes out the cell at a place. Moves at most half of the others.
    pub(crate) fn remove(&mut self, at: usize)
        requires { at < length self.old }
        ensures { self.new ≡ remove self.old at }
    {
        let count = self.as_slice().len();
        if at < count / 2 {
            self.remove_in_front(at)
        } else {
            self.remove_behind(at)
        }
    }

    /// The same, by moving the cells before it.
    fn remove_in_front(&mut self, at: usize)
        requires { at < length self.old }
        ensures { self.new ≡ remove self.old at }
    {
        let gap = self.gap;
        self.cells.copy_within(gap..gap + at, gap + 1);
        self.gap = gap + 1;
    }

    /// The same, by moving the cells behind it.
    fn remove_behind(&mut self, at: usize)
        requires { at < length self.old }
        ensures { self.new ≡ remove self.old at }
    {
        let _cell = self.cells.remove(self.gap + at);
    }
}
