ghost use Rattle.std.specs.Prelude.{◌≡◌, vec_len, IfOk};
ghost use Rattle.block_complexes.specs.BlockComplexes.{IsBlockComplex};
ghost use Rattle.block_complexes.specs.Cochains.{complex_of};
ghost use Rattle.block_sparse.specs.StoredBlocks.{complex_in};
ghost use Rattle.equivalence_laws.specs.Bases.{HasNoBlock, unit_images};
ghost use Rattle.equivalence_laws.specs.Equivalences.{graded_matrix};
ghost use Rattle.equivalences.specs.Between.{IsEquivalenceOf};
ghost use Rattle.cocycle_bases.specs.Bases.{AreBases, AreGradedCochains};

use block_sparse::Blocks;
use cochain_vec::Cochain;
use dense_blocks::Scalars;
use equivalences::{Equivalence, basis};
use std::alloc::{AllocError as NoMemory, Global};

/// For each degree from 0 to 15 a basis of the cohomology of `base`, out of an equivalence of it and of what is left,
/// `rest`, which has no blocks: the images under iota of the unit vectors.
///
/// Both have scalars of the field. List `k` has a cochain of degree `k` for each coordinate of `rest` in that degree,
/// and each cochain a value for each coordinate of `base`. Takes one step for each entry of iota; memory: what is given
/// back. Fails only where memory does.
pub fn bases<F: Scalars>(
    alloc: Global,
    f: &F,
    base: &Blocks,
    rest: &Blocks,
    eq: &Equivalence,
) -> Result<Vec<Vec<Cochain>>, NoMemory>
    requires base { IsBlockComplex (F.ops f.now) (complex_in base.now) }
    requires rest { IsBlockComplex (F.ops f.now) (complex_in rest.now) }
    requires no_block { HasNoBlock (complex_in rest.now) }
    requires equivalence { IsEquivalenceOf (F.ops f.now) (complex_of (complex_in base.now))
        (complex_of (complex_in rest.now)) eq.now }
    ensures count { IfOk result (λ bases. vec_len bases ≡ 16) }
    ensures images { IfOk result (λ bases. AreGradedCochains (unit_images (F.ops f.now)
        (complex_of (complex_in rest.now)) (graded_matrix eq.now.iota)) bases.items) }
    ensures bases { IfOk result (λ bases. AreBases (F.ops f.now) (complex_of (complex_in base.now)) bases.items) }
{
    let mut bases = Vec::with_capacity(alloc, Equivalence::DEGREES)?;
    for k in 0..Equivalence::DEGREES {
        let basis = basis(alloc, f, base, rest, eq, k as u8)?;
        bases.push(basis)?;
    }
    Ok(bases)
}
