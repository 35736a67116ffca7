ghost use Rattle.std.specs.Prelude.{◌≡◌, ◌+◌, ◌<◌, ◌≤◌, All, IfOk};
ghost use Rattle.dense_blocks.specs.Field.{Ops};
ghost use Rattle.dense_blocks.specs.FieldLaws.{IsField};
ghost use Rattle.block_complexes.specs.BlockComplexes.{IsBlockComplex};
ghost use Rattle.block_complexes.specs.Cochains.{complex_of};
ghost use Rattle.block_sparse.specs.StoredBlocks.{complex_in};
ghost use Rattle.reduce_step.specs.Parts.{IsJoinedBlock};
ghost use Rattle.query_answers.specs.Degrees.{AreCoboundaryMatrices, HaveCoboundaryShapes, sized_of_degree};

use block_grids::grid;
use block_sparse::Blocks;
use dense_blocks::{Block, Listed};
use std::alloc::{AllocError as NoMemory, Global};

/// The matrix of the coboundary from degree `k` to degree `k + 1`, for each `k` below `degrees`.
///
/// Each live cell has a degree below `degrees`. The matrix at `k` has a column for each coordinate of the live cells of
/// degree `k`, and a row for each of those of degree `k + 1`, in order; it has no rows or no columns where there are no
/// such cells. Takes, for each degree, one step for each live cell, and what [`grid`] takes. Fails only where memory
/// does.
pub(crate) fn coboundary_matrices(
    alloc: Global,
    b: &Blocks,
    degrees: u8,
) -> Result<Listed<Block>, NoMemory>
    requires { All (λ l. l.1 < degrees) b.now.live }
    ensures shapes { IfOk result (HaveCoboundaryShapes degrees (complex_of (complex_in b.now))) }
    ensures matrices { IfOk result (λ d. (K : Ops) → IsField K → IsBlockComplex K (complex_in b.now)
        → AreCoboundaryMatrices K (complex_of (complex_in b.now)) d) }
{
    // Gives the prover what is true of the blocks.
    let _cells = b.live();
    let mut matrices = Vec::with_capacity(alloc, usize::from(degrees))?;
    for k in 0..degrees {
        let matrix = coboundary_matrix(alloc, b, k)?;
        matrices.push(matrix)?;
    }
    Ok(Listed::of(matrices))
}

/// The joined matrix of the blocks from the live cells of degree `k` to those of degree `k + 1`.
fn coboundary_matrix(alloc: Global, b: &Blocks, k: u8) -> Result<Block, NoMemory>
    requires { k + 1 ≤ 255 }
    ensures { IfOk result
        (IsJoinedBlock b.now (sized_of_degree k b.now.live) (sized_of_degree (k + 1) b.now.live)) }
{
    // Gives the prover what is true of the live cells.
    let _cells = b.live();
    let left = cells_of_degree(alloc, b, k)?;
    let below = cells_of_degree(alloc, b, k + 1)?;
    let matrix = grid(alloc, b, &left, &below)?;
    Ok(matrix)
}

/// The live cells of degree `k`, each with its size.
fn cells_of_degree(alloc: Global, b: &Blocks, k: u8) -> Result<Vec<(u32, u8)>, NoMemory>
    ensures { IfOk result (λ cells. cells.items ≡ sized_of_degree k b.now.live) }
{
    b.live()
        .iter()
        .filter(|l| l.1 == k)
        .map(|l| (l.0, l.2))
        .collect(alloc)
}
