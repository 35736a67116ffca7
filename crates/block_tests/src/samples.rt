//! The fork: two cells, and two above them, of one coordinate and of two.
ghost use Rattle.std.specs.Prelude.{◌≡◌, [], ◌∷◌, IfOk};

use block_sparse::Blocks;
use dense_blocks::Block;
use std::alloc::{AllocError as NoMemory, Global};
use std::process::Abort;

/// The cells, each with its degree and its size.
pub(crate) const CELLS: [(u32, u8, u8); 4] = [(0, 0, 1), (1, 0, 2), (2, 1, 1), (3, 1, 2)];

/// The joined matrix of its blocks: columns for 0 and 1, rows for 2 and 3. No block goes from 0 to 3.
pub(crate) const MATRIX: [u8; 9] = [1, 0, 1, 0, 1, 1, 0, 0, 1];

/// The fork, without flags.
pub(crate) fn fork(rt: &impl Abort, alloc: Global) -> Result<Blocks, NoMemory>
    ensures { IfOk result (λ b. b.live ≡ (0, 0, 1) ∷ (1, 0, 2) ∷ (2, 1, 1) ∷ (3, 1, 2) ∷ []) }
{
    assert!(rt; Blocks::may_live(&CELLS));
    let mut blocks = Blocks::of_cells(alloc, &CELLS)?;
    let joined = Block::of(alloc, 3, 3, &MATRIX)?;
    blocks.set_grid(&[(0, 1), (1, 2)], &[(2, 1), (3, 2)], &joined)?;
    Ok(blocks)
}

/// Sets the flag of a block that stands.
pub(crate) fn flag(rt: &impl Abort, blocks: &mut Blocks, s: u32, t: u32) {
    assert!(rt; blocks.get(s, t).is_some());
    blocks.flag(s, t);
}

/// Whether a block of these entries stands there.
pub(crate) fn stands(blocks: &Blocks, s: u32, t: u32, entries: &[u8]) -> bool {
    match blocks.get(s, t) {
        Some(b) => b.entries.as_slice() == entries,
        None => false,
    }
}

/// Whether these cells stand in a row and in a column.
pub(crate) fn lists(blocks: &Blocks, cell: u32, row: &[u32], column: &[u32]) -> bool {
    blocks.row(cell) == row && blocks.column(cell) == column
}
