ghost use Rattle.std.specs.Prelude.{◌≡◌, ◌<◌, [], replicate, length, slice_index_or, slice_set, IfOk, OnOk};
ghost use Rattle.std.specs.List.Sorted.{IsNonDecreasing};
ghost use Rattle.cell_complex.specs.Neighbours.{neighbour_lists, with_cell, HasRoom};

use std::alloc::{AllocError as NoMemory, Global};

/// For each cell a list of cells beside it.
#[derive(Debug, Drop)]
pub(crate) struct Neighbours {
    lists: Vec<Vec<u32>>,
}

impl Neighbours {
    /// Empty lists, one for each of so many cells.
    pub fn of_cells(alloc: Global, count: usize) -> Result<Self, NoMemory>
        ensures { IfOk result (λ n. neighbour_lists n ≡ replicate count []) }
    {
        let mut lists = Vec::with_capacity(alloc, count)?;
        for _added in 0..count {
            lists.push(Vec::new(alloc))?;
        }
        Ok(Neighbours { lists })
    }

    /// The list of the cell.
    pub fn list(&self, cell: u32) -> &[u32]
        requires { cell < length (neighbour_lists self.now) }
        ensures { result.now ≡ slice_index_or (neighbour_lists self.now) cell [] }
    {
        &self.lists[cell as usize]
    }

    /// Makes room for one cell more in the list of the cell.
    pub fn make_room(&mut self, cell: u32) -> Result<(), NoMemory>
        requires { cell < length (neighbour_lists self.old) }
        ensures same { neighbour_lists self.new ≡ neighbour_lists self.old }
        ensures room { OnOk result (HasRoom self.new cell) }
    {
        self.lists[cell as usize].reserve(1)
    }

    /// Puts `other` in order into the rising list of the cell, where there is room.
    pub fn insert(&mut self, cell: u32, other: u32)
        requires cell { cell < length (neighbour_lists self.old) }
        requires room { HasRoom self.old cell }
        requires rising { IsNonDecreasing (slice_index_or (neighbour_lists self.old) cell []) }
        ensures { neighbour_lists self.new ≡ slice_set (neighbour_lists self.old) cell
            (with_cell other (slice_index_or (neighbour_lists self.old) cell [])) }
    {
        let list = &mut self.lists[cell as usize];
        let at = list.partition_point(|&x| x < other);
        list.insert(at, other).unwrap();
    }
}
