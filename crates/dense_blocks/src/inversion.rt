ghost use Rattle.std.specs.Prelude.{◌≡◌, ◌+◌, ◌*◌, ◌<◌, ◌≤◌, ◌++◌, length, map, drop, IfOk, OnOk};
ghost use Rattle.dense_blocks.specs.Vectors.{AllScalars, zeros};
ghost use Rattle.dense_blocks.specs.Matrices.{cut};
ghost use Rattle.dense_blocks.specs.MatrixFacts.{identity};
ghost use Rattle.dense_blocks.specs.Blocks.{matrix_of};
ghost use Rattle.dense_blocks.specs.BlockFacts.{IsBlock};
ghost use Rattle.dense_blocks.specs.Columns.{beside, kernel_vector};
ghost use Rattle.dense_blocks.specs.Inverses.{Inverts};

use crate::block::Block;
use crate::entries::Entries;
use crate::inverse::Inverse;
use crate::row_operations::eliminate;
use crate::scalars::Scalars;
use std::alloc::{AllocError as NoMemory, Global};

/// The inverse of a square block, or, exactly where there is none, a vector that is not zero and that the block sends
/// to zero.
///
/// By elimination on the rows of the block beside those of the identity (Gauss and Jordan). For a block of n rows it
/// takes at most 2n³ products of scalars, as many sums, n inverses and, beside the result, 2n² bytes; up to two rows it
/// takes no memory but for the result, and of one row only the inverse of the entry. The only error is want of memory.
pub fn invert<F: Scalars>(alloc: Global, f: &F, a: &Block) -> Result<Inverse, NoMemory>
    requires square { a.now.rows ≡ a.now.cols }
    requires scalars { AllScalars (F.ops f.now) a.now.entries }
    ensures { IfOk result (Inverts (F.ops f.now) a.now) }
{
    if a.rows == 1 {
        return invert_one(alloc, f, a);
    }
    let mut joined = beside_identity(alloc, a)?.into_items();
    match eliminate(f, a.rows as usize, joined.as_mut_slice()) {
        None => Ok(Inverse::Both(right_half(alloc, a.rows, joined.as_slice())?)),
        Some(column) => Ok(Inverse::Singular(kernel_vector(
            alloc,
            f,
            a.rows as usize,
            column,
            joined.as_slice(),
        )?)),
    }
}

/// The inverse of a block of one entry, or the vector of one coordinate that shows that there is none.
fn invert_one<F: Scalars>(alloc: Global, f: &F, a: &Block) -> Result<Inverse, NoMemory>
    requires one { a.now.rows ≡ 1 }
    requires square { a.now.rows ≡ a.now.cols }
    requires scalars { AllScalars (F.ops f.now) a.now.entries }
    ensures { IfOk result (Inverts (F.ops f.now) a.now) }
{
    let entry = a.entries.as_slice()[0];
    if entry == 0 {
        let mut one = Vec::new(alloc);
        one.push(1)?;
        return Ok(Inverse::Singular(one));
    }
    let inverse = Block::of(alloc, 1, 1, &[f.inv(entry)])?;
    Ok(Inverse::Both(inverse))
}

/// The rows of the block, each with that of the identity behind it.
fn beside_identity(alloc: Global, a: &Block) -> Result<Entries, NoMemory>
    requires square { a.now.rows ≡ a.now.cols }
    ensures full { IfOk result (λ e. length e ≡ a.now.rows * (2 * a.now.rows)) }
    ensures matrix { IfOk result (λ e.
        cut a.now.rows (2 * a.now.rows) e ≡ beside (matrix_of a.now) (identity a.now.rows)) }
{
    let size = a.rows as usize;
    let mut entries = Entries::with_room(alloc, 2 * size * size)?;
    for i in 0..a.rows {
        entries.push_all(a.row(i))?;
        entries.push_zeros(i as usize)?;
        entries.push(1)?;
        entries.push_zeros((a.rows - 1 - i) as usize)?;
    }
    Ok(entries)
}

/// The second half of each of the rows.
fn right_half(alloc: Global, size: u32, rows: &[u8]) -> Result<Block, NoMemory>
    requires size { size ≤ 4096 }
    requires full { length rows.now ≡ size * (2 * size) }
    ensures { IfOk result (λ b. IsBlock b size size (map (drop size) (cut size (2 * size) rows.now))) }
{
    let n = size as usize;
    let mut entries = Entries::with_room(alloc, n * n)?;
    for i in 0..n {
        let start = i * (2 * n) + n;
        entries.push_all(&rows[start..start + n])?;
    }
    Ok(Block {
        rows: size,
        cols: size,
        entries,
    })
}

/// The vector that rows whose first columns are those of the identity send to zero, where the next column has no entry
/// to eliminate with.
fn kernel_vector<F: Scalars>(
    alloc: Global,
    f: &F,
    size: usize,
    column: usize,
    rows: &[u8],
) -> Result<Vec<u8>, NoMemory>
    requires size { size ≤ 4096 }
    requires column { column < size }
    requires full { length rows.now ≡ size * (2 * size) }
    requires scalars { AllScalars (F.ops f.now) rows.now }
    ensures { IfOk result (λ v. v.items ≡ kernel_vector (F.ops f.now) size column (cut size (2 * size) rows.now)) }
{
    let mut v = Vec::with_capacity(alloc, size)?;
    for i in 0..column {
        v.push(f.neg(rows[i * (2 * size) + column]))?;
    }
    v.push(1)?;
    push_zeros(&mut v, size - 1 - column)?;
    Ok(v)
}

/// Adds `count` zeros at the end.
#[tactic(auto, using(crate::proofs::VectorLaws::pushing))]
fn push_zeros(v: &mut Vec<u8>, count: usize) -> Result<(), NoMemory>
    ensures { OnOk result (v.new.items ≡ v.old.items ++ zeros count) }
{
    for _added in 0..count {
        v.push(0)?;
    }
    Ok(())
}
