ghost use Rattle.std.specs.Prelude.{◌≡◌, ◌<◌, suc, Some, slice_get, length, IfOk};
ghost use Rattle.cochain_vec.specs.Complexes.{coordinates};
ghost use Rattle.equivalence_laws.specs.Equivalences.{composite_pi, composite_iota, composite_h};
ghost use Rattle.equivalences.specs.GradedBlocks.{HoldsMatrix};
ghost use Rattle.equivalence_laws.specs.Equivalences.{graded_matrix};
ghost use Rattle.equivalences.specs.Composition.{AreComposable, ForComposable, IsCompositeOf, JoinsEquivalences};

use crate::equivalence::Equivalence;
use crate::products::product_or_copy;
use dense_blocks::{Block, Listed, Scalars, sum};
use std::alloc::{AllocError as NoMemory, Global};

/// The composite of two equivalences, of which the second begins where the first ends: in each degree `pi2 pi1`, `iota1
/// iota2` and `h1 + iota1 h2 pi1`.
///
/// Takes four products and a sum of blocks for each degree; a product with an identity is a copy. Fails only where
/// memory does.
pub fn compose<F: Scalars>(
    alloc: Global,
    f: &F,
    first: &Equivalence,
    second: &Equivalence,
) -> Result<Equivalence, NoMemory>
    requires { AreComposable (F.ops f.now) first.now second.now }
    ensures composite { IfOk result (IsCompositeOf (F.ops f.now) first.now second.now) }
    ensures equivalence { IfOk result (JoinsEquivalences (F.ops f.now) first.now second.now) }
{
    let mut pi = Vec::with_capacity(alloc, Equivalence::DEGREES)?;
    let mut iota = Vec::with_capacity(alloc, Equivalence::DEGREES)?;
    let mut h = Vec::with_capacity(alloc, Equivalence::DEGREES)?;
    for k in 0..Equivalence::DEGREES {
        pi.push(pi_at(alloc, f, first, second, k)?)?;
        iota.push(iota_at(alloc, f, first, second, k)?)?;
        h.push(h_at(alloc, f, first, second, k)?)?;
    }
    Ok(Equivalence {
        pi: Listed::of(pi),
        iota: Listed::of(iota),
        h: Listed::of(h),
    })
}

/// Member `k` of the composite's `pi`.
fn pi_at<F: Scalars>(
    alloc: Global,
    f: &F,
    first: &Equivalence,
    second: &Equivalence,
    k: usize,
) -> Result<Block, NoMemory>
    requires composable { AreComposable (F.ops f.now) first.now second.now }
    requires degree { k < 16 }
    ensures { IfOk result (λ b. ForComposable (F.ops f.now) first.now second.now (λ C D E.
        HoldsMatrix (F.ops f.now) (coordinates E k) (coordinates C k)
        (composite_pi (F.ops f.now) C (graded_matrix first.now.pi) (graded_matrix second.now.pi) k) b)) }
{
    let left = member(&second.pi, k);
    let right = member(&first.pi, k);
    let pi = product_or_copy(alloc, f, left, right)?;
    Ok(pi)
}

/// Member `k` of the composite's `iota`.
fn iota_at<F: Scalars>(
    alloc: Global,
    f: &F,
    first: &Equivalence,
    second: &Equivalence,
    k: usize,
) -> Result<Block, NoMemory>
    requires composable { AreComposable (F.ops f.now) first.now second.now }
    requires degree { k < 16 }
    ensures { IfOk result (λ b. ForComposable (F.ops f.now) first.now second.now (λ C D E.
        HoldsMatrix (F.ops f.now) (coordinates C k) (coordinates E k)
        (composite_iota (F.ops f.now) E (graded_matrix first.now.iota) (graded_matrix second.now.iota) k) b)) }
{
    let left = member(&first.iota, k);
    let right = member(&second.iota, k);
    let iota = product_or_copy(alloc, f, left, right)?;
    Ok(iota)
}

/// Member `k` of the composite's `h`; in the last degree, which has none above, it is that of the first.
fn h_at<F: Scalars>(
    alloc: Global,
    f: &F,
    first: &Equivalence,
    second: &Equivalence,
    k: usize,
) -> Result<Block, NoMemory>
    requires composable { AreComposable (F.ops f.now) first.now second.now }
    requires degree { k < 16 }
    ensures { IfOk result (λ b. ForComposable (F.ops f.now) first.now second.now (λ C D E.
        HoldsMatrix (F.ops f.now) (coordinates C k) (coordinates C (suc k))
        (composite_h (F.ops f.now) C (graded_matrix first.now.pi) (graded_matrix first.now.iota)
        (graded_matrix first.now.h) (graded_matrix second.now.h) k) b)) }
{
    let own = member(&first.h, k);
    let iota = member(&first.iota, k);
    let other = member(&second.h, k);
    if k + 1 == Equivalence::DEGREES {
        let h = own.copy(alloc)?;
        return Ok(h);
    }
    let pi = member(&first.pi, k + 1);
    let inner = product_or_copy(alloc, f, other, pi)?;
    let carried = product_or_copy(alloc, f, iota, &inner)?;
    let h = sum(alloc, f, own, &carried)?;
    Ok(h)
}

/// The block of degree `k`.
pub(crate) fn member(blocks: &Listed<Block>, k: usize) -> &Block
    requires { k < length blocks.now }
    ensures { slice_get blocks.now k ≡ Some result.now }
{
    &blocks.as_slice()[k]
}
