ghost use Rattle.std.specs.Prelude.{◌≡◌, IfOk};
ghost use Rattle.cochain_vec.specs.Cohomology.{IsBasis};
ghost use Rattle.block_complexes.specs.BlockComplexes.{IsBlockComplex};
ghost use Rattle.block_complexes.specs.Cochains.{complex_of};
ghost use Rattle.block_sparse.specs.StoredBlocks.{complex_in};
ghost use Rattle.equivalence_laws.specs.Bases.{HasNoBlock, unit_images};
ghost use Rattle.equivalence_laws.specs.Equivalences.{graded_matrix};
ghost use Rattle.equivalences.specs.Between.{IsEquivalenceOf};
ghost use Rattle.equivalences.specs.CochainLists.{AreCochains, values_of};

use block_sparse::Blocks;
use cochain_vec::Cochain;
use dense_blocks::Scalars;
use equivalences::{Equivalence, basis};
use std::alloc::{AllocError as NoMemory, Global};

/// A basis of the global sections of `base`, out of an equivalence of it and of what is left, `rest`, which has no
/// blocks: its basis of degree 0, the images under iota of the unit vectors.
///
/// Takes one step for each entry of iota in degree 0; memory: what is given back. Fails only where memory does.
pub fn global<F: Scalars>(
    alloc: Global,
    f: &F,
    base: &Blocks,
    rest: &Blocks,
    eq: &Equivalence,
) -> Result<Vec<Cochain>, NoMemory>
    requires base { IsBlockComplex (F.ops f.now) (complex_in base.now) }
    requires rest { IsBlockComplex (F.ops f.now) (complex_in rest.now) }
    requires no_block { HasNoBlock (complex_in rest.now) }
    requires equivalence { IsEquivalenceOf (F.ops f.now) (complex_of (complex_in base.now))
        (complex_of (complex_in rest.now)) eq.now }
    ensures images { IfOk result (λ sections. AreCochains 0 (unit_images (F.ops f.now)
        (complex_of (complex_in rest.now)) (graded_matrix eq.now.iota) 0) sections.items) }
    ensures basis { IfOk result (λ sections. IsBasis (F.ops f.now) (complex_of (complex_in base.now)) 0
        (values_of sections.items)) }
{
    let sections = basis(alloc, f, base, rest, eq, 0)?;
    Ok(sections)
}
