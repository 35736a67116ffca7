ghost use Rattle.std.specs.Prelude.{◌≡◌, true, length, IfOk};
ghost use Rattle.dense_blocks.specs.Vectors.{AllScalars};
ghost use Rattle.cochain_vec.specs.Cohomology.{IsBasis};
ghost use Rattle.rising_lists.specs.Rising.{has};
ghost use Rattle.block_complexes.specs.BlockComplexes.{IsBlockComplex, cells, degree_of, size_of};
ghost use Rattle.block_complexes.specs.Cochains.{complex_of};
ghost use Rattle.block_sparse.specs.StoredBlocks.{complex_in};
ghost use Rattle.equivalences.specs.CochainLists.{values_of};
ghost use Rattle.sections.specs.Answers.{Extends};

use crate::values::{combination, start_of, values_at};
use block_sparse::Blocks;
use cochain_vec::Cochain;
use dense_blocks::{Scalars, Solution, solve};
use std::alloc::{AllocError as NoMemory, Global};

/// Whether a value extends to a global section.
#[derive(Debug, Drop)]
pub enum Extension {
    /// A section that has it.
    Section(Cochain),
    /// No section has it: this functional is 0 on the values of all sections, and 1 on this one.
    NoSection(Vec<u8>),
}

/// A global section of `base` that has the value `v` at `s`, or, exactly where no section has it, a functional that
/// tells `v` from the values there of all sections; out of a basis of the sections.
///
/// `v` has the size of `s`, a cell of degree 0; at a cell that is not live it is empty. The section is the combination
/// of the basis by the leading coefficients with which its values at `s` give `v`, and the functional is the leading
/// one, as [`solve`] gives them. Takes a look at each live cell, what `solve` takes for a column of the size of `s` for
/// each vector of the basis, and a sum and a product of scalars for each coordinate of those vectors that are not left
/// out, which are at most as many as the size of `s`. Memory: the values of the basis at `s`, and what is given back.
/// Fails only where memory does.
pub fn extend<F: Scalars>(
    alloc: Global,
    f: &F,
    base: &Blocks,
    basis: &[Cochain],
    s: u32,
    v: &[u8],
) -> Result<Extension, NoMemory>
    requires base { IsBlockComplex (F.ops f.now) (complex_in base.now) }
    requires basis { IsBasis (F.ops f.now) (complex_of (complex_in base.now)) 0 (values_of basis.now) }
    requires vertex { has s (cells base.now.live) ≡ true → degree_of base.now.live s ≡ 0 }
    requires size { length v.now ≡ size_of base.now.live s }
    requires scalars { AllScalars (F.ops f.now) v.now }
    ensures { IfOk result
        (Extends (F.ops f.now) (complex_of (complex_in base.now)) (values_of basis.now) s v.now) }
{
    let start = start_of(base.live(), s);
    let values = values_at(alloc, basis, start, v.len())?;
    match solve(alloc, f, &values, v)? {
        Solution::Combination(coefficients) => {
            let size = base.coordinates(0);
            let section = combination(alloc, f, size, &coefficients, basis)?;
            Ok(Extension::Section(Cochain {
                degree: 0,
                values: section,
            }))
        }
        Solution::Apart(functional) => Ok(Extension::NoSection(functional)),
    }
}
