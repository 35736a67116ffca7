ghost use Rattle.std.specs.Prelude.{◌≡◌, ◌<◌, [], length, map, slice_index_or, IfOk};
ghost use Rattle.reply_text.specs.JoinedMatrices.{all_coordinates};
ghost use Rattle.reply_text.specs.Parts.{capped, with_cell};

use dense_blocks::Block;
use std::alloc::{AllocError as NoMemory, Global};

/// A cell, its degree, and how many coordinates it has.
pub(crate) type Cell = (u32, u8, u8);

/// A cell, its degree, and its coordinates among those of all cells of its degree.
#[derive(Clone, Copy)]
pub(crate) struct Coordinates {
    pub(crate) cell: u32,
    pub(crate) degree: u8,
    /// The first of them.
    pub(crate) first: u32,
    /// How many there are.
    pub(crate) size: u8,
}

/// As many as there are degrees.
const DEGREES: usize = 256;

/// The coordinates of a cell that comes after others, of whose coordinates so many are of each degree; then its own are
/// among these. Those that would come after as many as a block has rows begin right there, where a block has none.
fn next_coordinates(sizes: &mut [u32], cell: Cell) -> Coordinates
    requires { length sizes.old ≡ 256 }
    ensures coordinates { result
        ≡ record { cell = cell.0; degree = cell.1; first = slice_index_or sizes.old cell.1 0; size = cell.2 } }
    ensures degree { cell.1 < 256 }
    ensures sizes { sizes.new ≡ with_cell sizes.old cell }
{
    let place = usize::from(cell.1);
    let first = sizes[place];
    sizes[place] = (first.min(Block::MOST) + u32::from(cell.2)).min(Block::MOST);
    Coordinates {
        cell: cell.0,
        degree: cell.1,
        first,
        size: cell.2,
    }
}

/// Those of each cell, in order; takes one step for each.
pub(crate) fn all_coordinates(alloc: Global, cells: &[Cell]) -> Result<Vec<Coordinates>, NoMemory>
    ensures { IfOk result (λ list. list.items ≡ map capped (all_coordinates [] cells.now)) }
{
    let mut list = Vec::with_capacity(alloc, cells.len())?;
    let mut sizes = [0u32; DEGREES];
    for cell in cells {
        let next = next_coordinates(&mut sizes, *cell);
        list.push(next)?;
    }
    Ok(list)
}
