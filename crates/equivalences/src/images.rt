ghost use Rattle.std.specs.Prelude.{◌≡◌, ◌<◌, slice_index, map, IfOk};
ghost use Rattle.dense_blocks.specs.Blocks.{matrix_of};
ghost use Rattle.cochain_vec.specs.Cohomology.{IsBasis};
ghost use Rattle.block_complexes.specs.BlockComplexes.{IsBlockComplex};
ghost use Rattle.block_complexes.specs.Cochains.{complex_of};
ghost use Rattle.block_sparse.specs.StoredBlocks.{complex_in};
ghost use Rattle.equivalence_laws.specs.Bases.{HasNoBlock, unit_images};
ghost use Rattle.equivalence_laws.specs.Equivalences.{graded_matrix};
ghost use Rattle.equivalence_laws.specs.Transposes.{transpose};
ghost use Rattle.equivalences.specs.Between.{IsEquivalenceOf};
ghost use Rattle.equivalences.specs.CochainLists.{AreCochains, values_of};

use crate::composite::member;
use crate::equivalence::Equivalence;
use block_sparse::Blocks;
use cochain_vec::Cochain;
use dense_blocks::{Block, Scalars};
use std::alloc::{AllocError as NoMemory, Global};

/// A basis of the cohomology of `base` in one degree below 16, out of an equivalence of it and of what is left, `rest`,
/// which has no blocks: the images under iota of the unit vectors.
///
/// Both have scalars of the field. There is a cochain for each coordinate of `rest` in that degree, and each has a value
/// for each coordinate of `base`. Takes one step for each entry of iota in that degree; memory: what is given back.
/// Fails only where memory does.
pub fn basis<F: Scalars>(
    alloc: Global,
    f: &F,
    base: &Blocks,
    rest: &Blocks,
    eq: &Equivalence,
    degree: u8,
) -> Result<Vec<Cochain>, NoMemory>
    requires base { IsBlockComplex (F.ops f.now) (complex_in base.now) }
    requires rest { IsBlockComplex (F.ops f.now) (complex_in rest.now) }
    requires no_block { HasNoBlock (complex_in rest.now) }
    requires equivalence { IsEquivalenceOf (F.ops f.now) (complex_of (complex_in base.now))
        (complex_of (complex_in rest.now)) eq.now }
    requires degree { degree < 16 }
    ensures images { IfOk result (λ basis. AreCochains degree (unit_images (F.ops f.now)
        (complex_of (complex_in rest.now)) (graded_matrix eq.now.iota) degree) basis.items) }
    ensures basis { IfOk result (λ basis. IsBasis (F.ops f.now) (complex_of (complex_in base.now)) degree
        (values_of basis.items)) }
{
    let block = member(&eq.iota, degree as usize);
    let basis = columns(alloc, block, degree)?;
    Ok(basis)
}

/// The columns of a block, as cochains of this degree.
fn columns(alloc: Global, block: &Block, degree: u8) -> Result<Vec<Cochain>, NoMemory>
    ensures { IfOk result (λ zs. AreCochains degree (transpose block.now.cols (matrix_of block.now)) zs.items) }
{
    let mut cochains = Vec::with_capacity(alloc, block.cols as usize)?;
    for j in 0..block.cols {
        let values = column(alloc, block, j)?;
        cochains.push(Cochain { degree, values })?;
    }
    Ok(cochains)
}

/// The column at `j`.
fn column(alloc: Global, block: &Block, j: u32) -> Result<Vec<u8>, NoMemory>
    requires { j < block.now.cols }
    ensures { IfOk result (λ v. v.items ≡ map (λ row. slice_index row j) (matrix_of block.now)) }
{
    let mut values = Vec::with_capacity(alloc, block.rows as usize)?;
    for i in 0..block.rows {
        let row = block.row(i);
        values.push(row[j as usize])?;
    }
    Ok(values)
}
