ghost use Rattle.std.specs.Prelude.{◌≡◌, ◌==◌, ◌&&◌, true, is_some, IfOk, OnOk};
ghost use Rattle.block_sparse.specs.StoredBlocks.{StandsAt, block_at, complex_in};
ghost use Rattle.block_sparse.specs.Flags.{HasNoFlags};
ghost use Rattle.scalar_finish.specs.Splits.{IsSplit, coordinate_cells};
ghost use Rattle.scalar_finish.specs.Entries.{AreNumbers, HavePut};

use crate::coordinates::{Numbers, coordinate_cells, coordinates_of, numbers_of};
use block_sparse::Blocks;
use dense_blocks::Block;
use std::alloc::{AllocError as NoMemory, Global};

/// The block complex split into its coordinates: a cell of size 1 for each, numbered from 0 on in order of cell and
/// place, with the degree of its cell; and the entries between them, without flags.
///
/// Takes one step for each coordinate, and for each block what [`Blocks::set_grid`] takes. Fails only where memory
/// does.
pub fn split(alloc: Global, b: &Blocks) -> Result<Blocks, NoMemory>
    ensures split { IfOk result (λ w. IsSplit (complex_in b.now) (complex_in w)) }
    ensures flags { IfOk result HasNoFlags }
{
    let cells = coordinate_cells(alloc, b.live())?;
    let listed = cells.as_slice();
    let numbers = numbers_of(alloc, b, listed)?;
    let mut w = Blocks::of_cells(alloc, listed)?;
    put_columns(b, &numbers, &mut w)?;
    Ok(w)
}

/// Puts the entries of all blocks.
fn put_columns(b: &Blocks, numbers: &Numbers, w: &mut Blocks) -> Result<(), NoMemory>
    requires numbers { AreNumbers b.now.live numbers.now }
    requires cells { w.old.live ≡ coordinate_cells 0 b.now.live }
    ensures live { OnOk result (w.new.live ≡ w.old.live) }
    ensures put { OnOk result (HavePut b.now (λ s t. is_some (block_at b.now s t)) w.old w.new) }
    ensures flags { OnOk result (HasNoFlags w.old → HasNoFlags w.new) }
{
    let live = b.live();
    for cell in live {
        put_column(b, numbers, w, cell.0)?;
    }
    Ok(())
}

/// Puts the entries of the blocks that go from a cell.
fn put_column(b: &Blocks, numbers: &Numbers, w: &mut Blocks, x: u32) -> Result<(), NoMemory>
    requires numbers { AreNumbers b.now.live numbers.now }
    requires cells { w.old.live ≡ coordinate_cells 0 b.now.live }
    ensures live { OnOk result (w.new.live ≡ w.old.live) }
    ensures put { OnOk result (HavePut b.now (λ s t. x == s && is_some (block_at b.now s t)) w.old w.new) }
    ensures flags { OnOk result (HasNoFlags w.old → HasNoFlags w.new) }
{
    let column = b.column(x);
    for y in column {
        put_block(b, numbers, w, x, *y)?;
    }
    Ok(())
}

/// Puts the entries of the block from `x` to `y`.
fn put_block(b: &Blocks, numbers: &Numbers, w: &mut Blocks, x: u32, y: u32) -> Result<(), NoMemory>
    requires numbers { AreNumbers b.now.live numbers.now }
    requires cells { w.old.live ≡ coordinate_cells 0 b.now.live }
    requires stands { is_some (block_at b.now x y) ≡ true }
    ensures live { OnOk result (w.new.live ≡ w.old.live) }
    ensures put { OnOk result (HavePut b.now (λ s t. x == s && y == t) w.old w.new) }
    ensures flags { OnOk result (HasNoFlags w.old → HasNoFlags w.new) }
{
    // This call is made for its clauses alone.
    let _live = b.live();
    let block = block_from(b, x, y);
    let left = coordinates_of(numbers, b, x);
    let below = coordinates_of(numbers, b, y);
    w.set_grid(left, below, block)?;
    Ok(())
}

/// The block from `x` to `y`, where one stands.
fn block_from(b: &Blocks, x: u32, y: u32) -> &Block
    requires { is_some (block_at b.now x y) ≡ true }
    ensures { StandsAt b.now x y result.now }
{
    b.get(x, y).unwrap()
}
