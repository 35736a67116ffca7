ghost use Rattle.std.specs.Prelude.{◌≡◌, ◌≢◌, ◌<◌, ◌+◌, ◌*◌, ℕ, IfOk, length, slice_index};
ghost use Rattle.dense_blocks.specs.Field.{Ops};
ghost use Rattle.dense_blocks.specs.FieldLaws.{IsField};
ghost use Rattle.dense_blocks.specs.Vectors.{AllScalars};
ghost use Rattle.dense_blocks.specs.Matrices.{cut};
ghost use Rattle.dense_blocks.specs.Blocks.{matrix_of};
ghost use Rattle.dense_blocks.specs.BlockFacts.{IsBlock};
ghost use Rattle.equivalence_laws.specs.Transposes.{transpose};

use dense_blocks::{Block, zeros};
use std::alloc::{AllocError as NoMemory, Global};

/// The transposed block: its rows are the columns of the block.
///
/// Takes a look at each entry, and a write for each that is not 0.
pub(crate) fn transposed(alloc: Global, a: &Block) -> Result<Block, NoMemory>
    ensures block { IfOk result (λ b. IsBlock b a.now.cols a.now.rows (transpose a.now.cols (matrix_of a.now))) }
    ensures scalars { IfOk result (λ b. (K : Ops) → IsField K → AllScalars K a.now.entries → AllScalars K b.entries) }
{
    let mut entries = zeros(alloc, a.entries.len())?;
    put_columns(&mut entries, a);
    let block = Block::of(alloc, a.cols, a.rows, &entries)?;
    Ok(block)
}

/// Writes over zeros the rows of the block, each as a column.
fn put_columns(into: &mut [u8], a: &Block)
    requires full { length into.old ≡ a.now.cols * a.now.rows }
    requires zeros { (k : ℕ) → slice_index into.old k ≡ 0 }
    ensures length { length into.new ≡ length into.old }
    ensures matrix { cut a.now.cols a.now.rows into.new ≡ transpose a.now.cols (matrix_of a.now) }
{
    for i in 0..a.rows {
        put_column(into, a.rows as usize, i as usize, a.row(i));
    }
}

/// Writes the row as the column at `i`, where zeros stand, of rows of `width` entries that are given one after another.
fn put_column(into: &mut [u8], width: usize, i: usize, row: &[u8])
    requires column { i < width }
    requires full { length into.old ≡ length row.now * width }
    requires zeros { (j : ℕ) → slice_index into.old (j * width + i) ≡ 0 }
    ensures length { length into.new ≡ length into.old }
    ensures column { (j : ℕ) → slice_index into.new (j * width + i) ≡ slice_index row.now j }
    ensures others { (j k : ℕ) → k < width → k ≢ i
        → slice_index into.new (j * width + k) ≡ slice_index into.old (j * width + k) }
{
    for j in 0..row.len() {
        let entry = row[j];
        if entry != 0 {
            into[j * width + i] = entry;
        }
    }
}
