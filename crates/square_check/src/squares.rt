ghost use Rattle.std.specs.Prelude.{◌≡◌, [], ◌∷◌, ◌≤◌, ◌↔◌, IsTrue, length};
ghost use Rattle.dense_blocks.specs.Vectors.{AllScalars, zeros, combination};
ghost use Rattle.dense_blocks.specs.Matrices.{product};
ghost use Rattle.dense_blocks.specs.Blocks.{matrix_of};

use dense_blocks::{Block, Scalars};

/// So many columns are worked out in the least room.
const FEW: usize = 16;
/// The most columns of a block.
const MOST: usize = Block::MOST as usize;

/// Whether `up1 * low1 = up2 * low2`.
///
/// Takes no memory, and stops at the first row that differs. Of blocks of one entry each it takes two products.
pub fn square<F: Scalars>(f: &F, up1: &Block, low1: &Block, up2: &Block, low2: &Block) -> bool
    requires inner1 { up1.now.cols ≡ low1.now.rows }
    requires inner2 { up2.now.cols ≡ low2.now.rows }
    requires rows { up1.now.rows ≡ up2.now.rows }
    requires cols { low1.now.cols ≡ low2.now.cols }
    requires up1_scalars { AllScalars (F.ops f.now) up1.now.entries }
    requires low1_scalars { AllScalars (F.ops f.now) low1.now.entries }
    requires up2_scalars { AllScalars (F.ops f.now) up2.now.entries }
    requires low2_scalars { AllScalars (F.ops f.now) low2.now.entries }
    ensures { IsTrue result ↔ (product (F.ops f.now) low1.now.cols (matrix_of up1.now) (matrix_of low1.now)
        ≡ product (F.ops f.now) low1.now.cols (matrix_of up2.now) (matrix_of low2.now)) }
{
    if up1.rows == 1 && up1.cols == 1 && up2.cols == 1 && low1.cols == 1 {
        let first = f.mul(only_entry(up1), only_entry(low1));
        let second = f.mul(only_entry(up2), only_entry(low2));
        return first == second;
    }
    for i in 0..up1.rows {
        if !same_row(f, up1.row(i), low1, up2.row(i), low2) {
            return false;
        }
    }
    true
}

/// The entry of a block of one row and one column.
fn only_entry(block: &Block) -> u8
    requires rows { block.now.rows ≡ 1 }
    requires cols { block.now.cols ≡ 1 }
    ensures { block.now.entries ≡ result ∷ [] }
{
    block.entries.as_slice()[0]
}

/// Whether a row of coefficients combines the rows of a block to the same as another row those of another block.
fn same_row<F: Scalars>(f: &F, row1: &[u8], low1: &Block, row2: &[u8], low2: &Block) -> bool
    requires size1 { length row1.now ≡ low1.now.rows }
    requires size2 { length row2.now ≡ low2.now.rows }
    requires cols { low1.now.cols ≡ low2.now.cols }
    requires row1_scalars { AllScalars (F.ops f.now) row1.now }
    requires low1_scalars { AllScalars (F.ops f.now) low1.now.entries }
    requires row2_scalars { AllScalars (F.ops f.now) row2.now }
    requires low2_scalars { AllScalars (F.ops f.now) low2.now.entries }
    ensures { IsTrue result ↔ (combination (F.ops f.now) low1.now.cols row1.now (matrix_of low1.now)
        ≡ combination (F.ops f.now) low1.now.cols row2.now (matrix_of low2.now)) }
{
    if low1.cols as usize <= FEW {
        same_within::<F, FEW>(f, row1, low1, row2, low2)
    } else {
        same_within::<F, MOST>(f, row1, low1, row2, low2)
    }
}

/// The same of blocks of at most `N` columns, whose combinations are worked out on the stack.
fn same_within<F: Scalars, const N: usize>(
    f: &F,
    row1: &[u8],
    low1: &Block,
    row2: &[u8],
    low2: &Block,
) -> bool
    requires room { low1.now.cols ≤ N }
    requires small { N ≤ 4096 }
    requires size1 { length row1.now ≡ low1.now.rows }
    requires size2 { length row2.now ≡ low2.now.rows }
    requires cols { low1.now.cols ≡ low2.now.cols }
    requires row1_scalars { AllScalars (F.ops f.now) row1.now }
    requires low1_scalars { AllScalars (F.ops f.now) low1.now.entries }
    requires row2_scalars { AllScalars (F.ops f.now) row2.now }
    requires low2_scalars { AllScalars (F.ops f.now) low2.now.entries }
    ensures { IsTrue result ↔ (combination (F.ops f.now) low1.now.cols row1.now (matrix_of low1.now)
        ≡ combination (F.ops f.now) low1.now.cols row2.now (matrix_of low2.now)) }
{
    let columns = low1.cols as usize;
    let mut zeros1 = [0; N];
    let mut zeros2 = [0; N];
    let first = &mut zeros1[..columns];
    let second = &mut zeros2[..columns];
    combine(f, first, row1, low1);
    combine(f, second, row2, low2);
    *first == *second
}

/// Makes of as many zeros as the block has columns the combination of its rows by the coefficients.
fn combine<F: Scalars>(f: &F, target: &mut [u8], coefficients: &[u8], block: &Block)
    requires zeros { target.old ≡ zeros block.now.cols }
    requires size { length coefficients.now ≡ block.now.rows }
    requires coefficient_scalars { AllScalars (F.ops f.now) coefficients.now }
    requires block_scalars { AllScalars (F.ops f.now) block.now.entries }
    ensures { target.new ≡ combination (F.ops f.now) block.now.cols coefficients.now (matrix_of block.now) }
{
    f.add_combination(target, coefficients, block.entries.as_slice());
}
