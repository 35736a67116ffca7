ghost use Rattle.std.specs.Prelude.{◌≡◌, length, IfOk};
ghost use Rattle.dense_blocks.specs.Vectors.{AllScalars};
ghost use Rattle.dense_blocks.specs.Matrices.{image_of, product};
ghost use Rattle.dense_blocks.specs.MatrixFacts.{matrix_negative, matrix_sum};
ghost use Rattle.dense_blocks.specs.Blocks.{matrix_of};
ghost use Rattle.dense_blocks.specs.BlockFacts.{IsBlock};

use crate::block::Block;
use crate::entries::Entries;
use crate::scalars::Scalars;
use std::alloc::{AllocError as NoMemory, Global};

/// The product of two blocks, of which the first has as many columns as the second has rows.
///
/// Takes `rows * a.cols * b.cols` products of scalars and as many sums.
pub fn product<F: Scalars>(alloc: Global, f: &F, a: &Block, b: &Block) -> Result<Block, NoMemory>
    requires shapes { a.now.cols ≡ b.now.rows }
    requires a_scalars { AllScalars (F.ops f.now) a.now.entries }
    requires b_scalars { AllScalars (F.ops f.now) b.now.entries }
    ensures block { IfOk result (λ c. IsBlock c a.now.rows b.now.cols
        (product (F.ops f.now) b.now.cols (matrix_of a.now) (matrix_of b.now))) }
    ensures scalars { IfOk result (λ c. AllScalars (F.ops f.now) c.entries) }
{
    let columns = b.cols as usize;
    let mut entries = Entries::with_room(alloc, a.rows as usize * columns)?;
    for i in 0..a.rows {
        entries.push_combination(f, columns, a.row(i), b.entries.as_slice())?;
    }
    Ok(Block {
        rows: a.rows,
        cols: b.cols,
        entries,
    })
}

/// The sum of two blocks of one shape.
pub fn sum<F: Scalars>(alloc: Global, f: &F, a: &Block, b: &Block) -> Result<Block, NoMemory>
    requires rows { a.now.rows ≡ b.now.rows }
    requires cols { a.now.cols ≡ b.now.cols }
    requires a_scalars { AllScalars (F.ops f.now) a.now.entries }
    requires b_scalars { AllScalars (F.ops f.now) b.now.entries }
    ensures block { IfOk result (λ c. IsBlock c a.now.rows a.now.cols
        (matrix_sum (F.ops f.now) (matrix_of a.now) (matrix_of b.now))) }
    ensures scalars { IfOk result (λ c. AllScalars (F.ops f.now) c.entries) }
{
    let mut entries = Entries::of(alloc, a.entries.as_slice())?;
    entries.add_scaled(f, 1, b.entries.as_slice());
    Ok(Block {
        rows: a.rows,
        cols: a.cols,
        entries,
    })
}

/// The negative of a block.
pub fn minus<F: Scalars>(alloc: Global, f: &F, a: &Block) -> Result<Block, NoMemory>
    requires { AllScalars (F.ops f.now) a.now.entries }
    ensures block { IfOk result (λ c. IsBlock c a.now.rows a.now.cols
        (matrix_negative (F.ops f.now) (matrix_of a.now))) }
    ensures scalars { IfOk result (λ c. AllScalars (F.ops f.now) c.entries) }
{
    let mut entries = Entries::of(alloc, a.entries.as_slice())?;
    entries.scale(f, f.neg(1));
    Ok(Block {
        rows: a.rows,
        cols: a.cols,
        entries,
    })
}

/// The image of a vector of as many coordinates as the block has columns.
///
/// Takes `rows * cols` products of scalars and as many sums.
pub fn apply<F: Scalars>(alloc: Global, f: &F, a: &Block, v: &[u8]) -> Result<Vec<u8>, NoMemory>
    requires size { length v.now ≡ a.now.cols }
    requires a_scalars { AllScalars (F.ops f.now) a.now.entries }
    requires v_scalars { AllScalars (F.ops f.now) v.now }
    ensures image { IfOk result (λ w. w.items ≡ image_of (F.ops f.now) (matrix_of a.now) v.now) }
    ensures scalars { IfOk result (λ w. AllScalars (F.ops f.now) w.items) }
{
    let mut image = Vec::with_capacity(alloc, a.rows as usize)?;
    for i in 0..a.rows {
        image.push(f.dot(a.row(i), v))?;
    }
    Ok(image)
}
