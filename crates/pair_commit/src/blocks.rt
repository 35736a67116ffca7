ghost use Rattle.std.specs.Prelude.{◌≡◌, ◌↔◌, IsTrue};
ghost use Rattle.block_sparse.specs.StoredBlocks.{StandsAt};

use block_sparse::Blocks;
use dense_blocks::Block;

/// Whether this block stands from `s` to `t`.
pub(crate) fn stands(b: &Blocks, s: u32, t: u32, block: &Block) -> bool
    ensures { IsTrue result ↔ StandsAt b.now s t block.now }
{
    match b.get(s, t) {
        Some(there) => is_same(there, block),
        None => false,
    }
}

/// Whether two blocks are equal.
fn is_same(a: &Block, b: &Block) -> bool
    ensures { IsTrue result ↔ (a.now ≡ b.now) }
{
    has_same_shape(a, b) && a.entries.as_slice() == b.entries.as_slice()
}

/// Whether two blocks have as many rows and as many columns.
fn has_same_shape(a: &Block, b: &Block) -> bool
    ensures { IsTrue result ↔ ((a.now.rows ≡ b.now.rows) × (a.now.cols ≡ b.now.cols)) }
{
    a.rows == b.rows && a.cols == b.cols
}
