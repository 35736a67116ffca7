ghost use Rattle.std.specs.Prelude.{◌≡◌, ◌≤◌, ℕ, None, IfOk, IfSome, MatchOption};
ghost use Rattle.dense_blocks.specs.Vectors.{AllScalars};
ghost use Rattle.cochain_vec.specs.CochainComplexes.{IsCochainComplex};
ghost use Rattle.cochain_vec.specs.Complexes.{IsCochain};
ghost use Rattle.block_complexes.specs.Cochains.{complex_of};
ghost use Rattle.block_sparse.specs.StoredBlocks.{complex_in};
ghost use Rattle.query_answers.specs.Answers.{IsAnswerIn};
ghost use Rattle.query_answers.specs.Endings.{IsCohomologyOf, IsEndingOf};

use crate::cohomology::{Cohomology, cohomology_of};
use crate::ending::Ending;
use crate::numbers::kept_ending;
use crate::rows::vectors;
use cochain_vec::Cochain;
use cocycle_bases::{Class, classify};
use dense_blocks::{Listed, Scalars};
use pair_commit::Slot;
use sheaf_words::{Query, Reply};
use std::alloc::{AllocError as NoMemory, Global};

/// The basis of degree `k`.
pub(crate) fn basis_of<F: Scalars>(
    alloc: Global,
    slot: &Slot<F>,
    cohomology: &Cohomology,
    k: u8,
) -> Result<Reply, NoMemory>
    requires degree { k ≤ 15 }
    requires kept { IsCohomologyOf (F.ops slot.now.f) slot.now cohomology.now }
    ensures { (degrees : ℕ)
        → IfOk result (IsAnswerIn (F.ops slot.now.f) degrees slot.now (Query.Basis k)) }
{
    let vectors = vectors(alloc, &cohomology.bases, k)?;
    Ok(Reply::Basis { k, vectors })
}

/// The class of a cochain of the base.
pub(crate) fn class_of<F: Scalars>(
    alloc: Global,
    slot: &Slot<F>,
    cohomology: &Cohomology,
    z: &Cochain,
) -> Result<Reply, NoMemory>
    requires degree { z.now.degree ≤ 15 }
    requires kept { IsCohomologyOf (F.ops slot.now.f) slot.now cohomology.now }
    requires cochain { IsCochain (F.ops slot.now.f) (complex_of (complex_in slot.now.base)) z.now.degree
        z.now.values.items }
    ensures { (degrees : ℕ)
        → IfOk result (IsAnswerIn (F.ops slot.now.f) degrees slot.now (Query.Class z.now.degree z.now.values.items)) }
{
    // This call is made for its clauses alone.
    let _present = slot.now();
    let f = slot.field();
    match classify(alloc, &f, slot.base(), &cohomology.maps, z)? {
        Class::NotCocycle { t } => Ok(Reply::NotCocycle { k: z.degree, t }),
        Class::Class { coords, primitive } => {
            let vectors = vectors(alloc, &cohomology.bases, z.degree)?;
            Ok(Reply::Class {
                k: z.degree,
                coords: Listed::of(coords),
                vectors,
                primitive: Listed::of(primitive),
            })
        }
    }
}

/// The numbers as scalars; none exactly where one of them is no scalar.
pub(crate) fn scalars<F: Scalars>(
    alloc: Global,
    f: &F,
    numbers: &[u32],
) -> Result<Option<Vec<u8>>, NoMemory>
    ensures { IfOk result (λ o. MatchOption o (AllScalars (F.ops f.now) numbers.now → ⊥)
        (λ v. (v.items ≡ numbers.now) × AllScalars (F.ops f.now) numbers.now)) }
{
    let order = f.order();
    let mut scalars = Vec::with_capacity(alloc, numbers.len())?;
    for number in numbers {
        if *number >= order {
            return Ok(None);
        }
        scalars.push(*number as u8)?;
    }
    Ok(Some(scalars))
}

/// The cohomology, taken from where it is kept, or made; the ending that it is made of stays where that is kept.
pub(crate) fn kept_cohomology<F: Scalars>(
    alloc: Global,
    slot: &Slot<F>,
    ending: &mut Option<Ending>,
    kept: &mut Option<Cohomology>,
) -> Result<Cohomology, NoMemory>
    requires closed { IsCochainComplex (F.ops slot.now.f) (complex_of (complex_in slot.now.base)) }
    requires ending { IfSome ending.old (IsEndingOf (F.ops slot.now.f) slot.now.present) }
    requires cohomology { IfSome kept.old (IsCohomologyOf (F.ops slot.now.f) slot.now) }
    ensures ending { IfSome ending.new (IsEndingOf (F.ops slot.now.f) slot.now.present) }
    ensures none { kept.new ≡ None }
    ensures cohomology { IfOk result (IsCohomologyOf (F.ops slot.now.f) slot.now) }
{
    if let Some(cohomology) = kept.take() {
        return Ok(cohomology);
    }
    let own = kept_ending(alloc, slot, ending)?;
    let cohomology = cohomology_of(alloc, slot, &own);
    *ending = Some(own);
    cohomology
}
