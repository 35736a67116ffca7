ghost use Rattle.std.specs.Prelude.{◌≡◌, ◌-◌, ◌<◌, ◌↔◌, ◌∷◌, ◌++◌, length, All, IsTrue, IfOk};
ghost use Rattle.std.specs.Bool.{OnTrue};
ghost use Rattle.dense_blocks.specs.Vectors.{AllScalars, zeros};
ghost use Rattle.dense_blocks.specs.Matrices.{product};
ghost use Rattle.dense_blocks.specs.MatrixFacts.{identity};
ghost use Rattle.dense_blocks.specs.Blocks.{matrix_of};
ghost use Rattle.dense_blocks.specs.BlockFacts.{IsBlock};

use dense_blocks::{Block, Scalars, product};
use std::alloc::{AllocError as NoMemory, Global};

/// The product of two blocks, of which the first has as many columns as the second has rows; where one of them is the
/// identity, a copy of the other.
pub(crate) fn product_or_copy<F: Scalars>(
    alloc: Global,
    f: &F,
    a: &Block,
    b: &Block,
) -> Result<Block, NoMemory>
    requires shapes { a.now.cols ≡ b.now.rows }
    requires a_scalars { AllScalars (F.ops f.now) a.now.entries }
    requires b_scalars { AllScalars (F.ops f.now) b.now.entries }
    ensures block { IfOk result (λ c. IsBlock c a.now.rows b.now.cols
        (product (F.ops f.now) b.now.cols (matrix_of a.now) (matrix_of b.now))) }
    ensures scalars { IfOk result (λ c. AllScalars (F.ops f.now) c.entries) }
{
    if is_identity(a) {
        let copy = b.copy(alloc)?;
        return Ok(copy);
    }
    if is_identity(b) {
        let copy = a.copy(alloc)?;
        return Ok(copy);
    }
    product(alloc, f, a, b)
}

/// Whether the block is the identity.
fn is_identity(block: &Block) -> bool
    ensures square { OnTrue result (block.now.cols ≡ block.now.rows) }
    ensures identity { OnTrue result (matrix_of block.now ≡ identity block.now.rows) }
{
    block.rows == block.cols && has_unit_rows(block)
}

/// Whether each row of a square block is the unit vector at its place.
fn has_unit_rows(block: &Block) -> bool
    requires { block.now.cols ≡ block.now.rows }
    ensures { OnTrue result (matrix_of block.now ≡ identity block.now.rows) }
{
    for i in 0..block.rows {
        if !is_unit(block.row(i), i as usize) {
            return false;
        }
    }
    true
}

/// Whether the row has 1 at `i` and 0 elsewhere.
fn is_unit(row: &[u8], i: usize) -> bool
    requires { i < length row.now }
    ensures { OnTrue result (row.now ≡ zeros i ++ 1 ∷ zeros (length row.now - 1 - i)) }
{
    if row[i] != 1 {
        return false;
    }
    if !are_zero(&row[..i]) {
        return false;
    }
    are_zero(&row[i + 1..])
}

/// Whether all entries are 0.
fn are_zero(entries: &[u8]) -> bool
    ensures { IsTrue result ↔ All (λ entry. entry ≡ 0) entries.now }
{
    entries.iter().all(|entry| *entry == 0)
}
