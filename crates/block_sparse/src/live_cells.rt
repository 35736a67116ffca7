ghost use Rattle.std.specs.Prelude.{◌≡◌, ◌==◌, ◌<◌, ◌≤◌, ℕ, true, false, length, slice_index, slice_index_or, not};
ghost use Rattle.std.specs.Prelude.{filter};
ghost use Rattle.std.specs.Prelude.{map, MatchOption, IfOk};
ghost use Rattle.rising_lists.specs.Rising.{IsRising, has};
ghost use Rattle.block_complexes.specs.BlockComplexes.{cells, degree_of, size_of};

use crate::gapped::Gapped;
use rising_lists::Line;
use std::alloc::{AllocError as NoMemory, Global};
use std::marker::Model;

/// The live cells, each with its degree and its size, rising by cell; and the sizes by place, so that none is searched
/// for.
#[derive(Debug, Drop)]
pub(crate) struct LiveCells {
    live: Gapped,
    /// The size of each cell that was live at first; 0 once it is not.
    sizes: Line<u8>,
}

impl Model for LiveCells {
    ghost use Rattle.std.specs.Prelude.{ℕ, List};
    ghost use Rattle.block_sparse.specs.Invariants.{AreSizes};

    ghost Value = { List (ℕ × ℕ × ℕ) };

    ghost view = { λ l. l.live };

    ghost invariant = { λ l. AreSizes l.live l.sizes };
}

impl LiveCells {
    /// These live cells.
    pub(crate) fn of(alloc: Global, live: &[(u32, u8, u8)]) -> Result<LiveCells, NoMemory>
        requires { IsRising (cells live.now) }
        ensures { IfOk result (λ l. l ≡ live.now) }
    {
        let sizes = Line::of_values(cells_of(alloc, live)?, sizes_of(alloc, live)?);
        Ok(LiveCells {
            live: Gapped::of(alloc, live)?,
            sizes,
        })
    }

    /// The same live cells.
    pub(crate) fn copy(&self, alloc: Global) -> Result<LiveCells, NoMemory>
        ensures { IfOk result (λ l. l ≡ self.now) }
    {
        Ok(LiveCells {
            live: Gapped::of(alloc, self.live.as_slice())?,
            sizes: self.sizes.copy(alloc)?,
        })
    }

    /// What gives them their memory.
    pub(crate) fn allocator(&self) -> Global {
        self.live.allocator()
    }

    /// The list of them.
    pub(crate) fn as_slice(&self) -> &[(u32, u8, u8)]
        ensures { result.now ≡ self.now }
    {
        self.live.as_slice()
    }

    /// The size of a cell; 0 for a cell that is not live.
    pub(crate) fn size(&self, c: u32) -> u8
        ensures { result ≡ size_of self.now c }
    {
        match self.sizes.get(c) {
            Some(size) => *size,
            None => 0,
        }
    }

    /// Takes a cell out.
    pub(crate) fn remove(&mut self, c: u32)
        requires { IsRising (cells self.old) }
        ensures { self.new ≡ filter (λ l. not (l.0 == c)) self.old }
    {
        remove_live(&mut self.live, c);
        self.sizes.put(c, 0);
    }
}

/// The cells of a list of live cells.
pub(crate) fn cells_of(alloc: Global, live: &[(u32, u8, u8)]) -> Result<Vec<u32>, NoMemory>
    ensures { IfOk result (λ c. c.items ≡ cells live.now) }
{
    live.iter().map(|l| l.0).collect(alloc)
}

/// The sizes in a list of live cells.
fn sizes_of(alloc: Global, live: &[(u32, u8, u8)]) -> Result<Vec<u8>, NoMemory>
    ensures { IfOk result (λ s. s.items ≡ map (λ l. l.2) live.now) }
{
    live.iter().map(|l| l.2).collect(alloc)
}

/// Takes a cell out of a list of live cells.
fn remove_live(live: &mut Gapped, c: u32)
    requires { IsRising (cells live.old) }
    ensures { live.new ≡ filter (λ l. not (l.0 == c)) live.old }
{
    if let Some(at) = find(live.as_slice(), c) {
        live.remove(at);
    }
}

/// Where a cell stands in a list of live cells.
pub(crate) fn find(live: &[(u32, u8, u8)], c: u32) -> Option<usize>
    requires { IsRising (cells live.now) }
    ensures { MatchOption result (has c (cells live.now) ≡ false)
        (λ i. (i < length live.now) × ((slice_index_or live.now i (0, 0, 0)).0 ≡ c)) }
{
    let at = count_below(live, c);
    if at < live.len() && live[at].0 == c {
        Some(at)
    } else {
        None
    }
}

/// How many of the live cells are below `c`.
fn count_below(live: &[(u32, u8, u8)], c: u32) -> usize
    requires { IsRising (cells live.now) }
    ensures within { result ≤ length live.now }
    ensures below { (i : ℕ) → i < result → slice_index (cells live.now) i < c }
    ensures from { (i : ℕ) → result ≤ i → i < length live.now → c ≤ slice_index (cells live.now) i }
{
    let mut low = 0;
    let mut high = live.len();
    while low < high {
        let middle = low + (high - low) / 2;
        if live[middle].0 < c {
            low = middle + 1;
        } else {
            high = middle;
        }
    }
    low
}

/// The degree and the size of a live cell.
pub(crate) fn cell_in(live: &[(u32, u8, u8)], c: u32) -> Option<(u8, u8)>
    requires { IsRising (cells live.now) }
    ensures { MatchOption result (has c (cells live.now) ≡ false)
        (λ l. (has c (cells live.now) ≡ true) × (degree_of live.now c ≡ l.0) × (size_of live.now c ≡ l.1)) }
{
    match find(live, c) {
        Some(at) => Some((live[at].1, live[at].2)),
        None => None,
    }
}
