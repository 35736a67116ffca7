ghost use Rattle.std.specs.Prelude.{◌≡◌, ◌+◌, ◌++◌, ◌≤◌, true, length, map, IfOk, OnOk};
ghost use Rattle.rising_lists.specs.Rising.{has};
ghost use Rattle.block_complexes.specs.BlockComplexes.{cells, live_size, size_of};
ghost use Rattle.scalar_finish.specs.Splits.{unit_cells, coordinate_cells, first_coordinate};
ghost use Rattle.scalar_finish.specs.Entries.{units_from, first_coordinates, AreNumbers};

use block_sparse::Blocks;
use rising_lists::Line;
use std::alloc::{AllocError as NoMemory, Global};

/// The numbers of the coordinates of live cells: for each cell that of its first, and all of them as cells of size 1.
#[derive(Debug, Drop)]
pub(crate) struct Numbers {
    firsts: Line<u32>,
    units: Vec<(u32, u8)>,
}

/// The numbers of the coordinates, from the cells of size 1 that have them.
pub(crate) fn numbers_of(
    alloc: Global,
    b: &Blocks,
    coordinates: &[(u32, u8, u8)],
) -> Result<Numbers, NoMemory>
    requires { coordinates.now ≡ coordinate_cells 0 b.now.live }
    ensures { IfOk result (AreNumbers b.now.live) }
{
    let live = b.live();
    let cells = cells_of(alloc, live)?;
    let values = first_coordinates(alloc, live)?;
    let firsts = Line::of_values(cells, values);
    let units = units_of(alloc, coordinates)?;
    Ok(Numbers { firsts, units })
}

/// The coordinates of a live cell, each of size 1.
pub(crate) fn coordinates_of<'a>(numbers: &'a Numbers, b: &Blocks, s: u32) -> &'a [(u32, u8)]
    requires numbers { AreNumbers b.now.live numbers.now }
    requires live { has s (cells b.now.live) ≡ true }
    ensures { result.now ≡ units_from (first_coordinate b.now.live s) (size_of b.now.live s) }
{
    let first = first_of(numbers, b, s) as usize;
    let size = b.size(s) as usize;
    let units = numbers.units.as_slice();
    &units[first..first + size]
}

/// The number of the first coordinate of a live cell.
fn first_of(numbers: &Numbers, b: &Blocks, s: u32) -> u32
    requires numbers { AreNumbers b.now.live numbers.now }
    requires live { has s (cells b.now.live) ≡ true }
    ensures { result ≡ first_coordinate b.now.live s }
{
    match numbers.firsts.get(s) {
        Some(first) => *first,
        None => 0,
    }
}

/// A cell of size 1 for each coordinate of the cells, numbered from 0 on.
pub(crate) fn coordinate_cells(
    alloc: Global,
    live: &[(u32, u8, u8)],
) -> Result<Vec<(u32, u8, u8)>, NoMemory>
    requires { live_size live.now ≤ 4096 }
    ensures { IfOk result (λ c. c.items ≡ coordinate_cells 0 live.now) }
{
    let mut cells = Vec::new(alloc);
    for cell in live {
        push_cells(&mut cells, cell.1, cell.2)?;
    }
    Ok(cells)
}

/// So many cells more, of size 1 and one degree, each numbered by its place.
fn push_cells(cells: &mut Vec<(u32, u8, u8)>, degree: u8, count: u8) -> Result<(), NoMemory>
    requires { length cells.old.items + count ≤ 4096 }
    ensures { OnOk result (cells.new.items
        ≡ cells.old.items ++ unit_cells (length cells.old.items) degree count) }
{
    for i in 0..count {
        // The loop's invariant names the place.
        let _at = i;
        let number = cells.len() as u32;
        cells.push((number, degree, 1))?;
    }
    Ok(())
}

/// For each cell the number of its first coordinate.
fn first_coordinates(alloc: Global, live: &[(u32, u8, u8)]) -> Result<Vec<u32>, NoMemory>
    requires { live_size live.now ≤ 4096 }
    ensures { IfOk result (λ f. f.items ≡ first_coordinates 0 live.now) }
{
    let mut firsts = Vec::with_capacity(alloc, live.len())?;
    let mut count = 0;
    for cell in live {
        firsts.push(count)?;
        count += u32::from(cell.2);
    }
    Ok(firsts)
}

/// The cells of a list of live cells.
pub(crate) fn cells_of(alloc: Global, live: &[(u32, u8, u8)]) -> Result<Vec<u32>, NoMemory>
    ensures { IfOk result (λ c. c.items ≡ cells live.now) }
{
    live.iter().map(|l| l.0).collect(alloc)
}

/// The cells of a list of live cells, each with its size.
fn units_of(alloc: Global, live: &[(u32, u8, u8)]) -> Result<Vec<(u32, u8)>, NoMemory>
    ensures { IfOk result (λ u. u.items ≡ map (λ l. (l.0, l.2)) live.now) }
{
    live.iter().map(|l| (l.0, l.2)).collect(alloc)
}
