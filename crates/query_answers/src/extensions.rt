ghost use Rattle.std.specs.Prelude.{◌≡◌, ℕ, true, IfOk};
ghost use Rattle.dense_blocks.specs.Vectors.{IsVector};
ghost use Rattle.rising_lists.specs.Rising.{has};
ghost use Rattle.block_complexes.specs.BlockComplexes.{cells, degree_of, size_of};
ghost use Rattle.query_answers.specs.Answers.{IsAnswerIn};
ghost use Rattle.query_answers.specs.Endings.{IsCohomologyOf};

use crate::cohomology::Cohomology;
use crate::rows::{member, vectors};
use dense_blocks::{Listed, Scalars};
use pair_commit::Slot;
use sections::{Extension, extend};
use sheaf_words::{Query, Reply};
use std::alloc::{AllocError as NoMemory, Global};

/// The global sections: the basis of degree 0.
pub(crate) fn sections_of<F: Scalars>(
    alloc: Global,
    slot: &Slot<F>,
    cohomology: &Cohomology,
) -> Result<Reply, NoMemory>
    requires kept { IsCohomologyOf (F.ops slot.now.f) slot.now cohomology.now }
    ensures { (degrees : ℕ) → IfOk result (IsAnswerIn (F.ops slot.now.f) degrees slot.now Query.Sections) }
{
    let sections = vectors(alloc, &cohomology.bases, 0)?;
    Ok(Reply::Sections(sections))
}

/// Whether the value at `s` extends to a global section.
pub(crate) fn extension_of<F: Scalars>(
    alloc: Global,
    slot: &Slot<F>,
    cohomology: &Cohomology,
    s: u32,
    v: &[u8],
) -> Result<Reply, NoMemory>
    requires vertex { has s (cells slot.now.base.live) ≡ true → degree_of slot.now.base.live s ≡ 0 }
    requires kept { IsCohomologyOf (F.ops slot.now.f) slot.now cohomology.now }
    requires value { IsVector (F.ops slot.now.f) (size_of slot.now.base.live s) v.now }
    ensures { (degrees : ℕ)
        → IfOk result (IsAnswerIn (F.ops slot.now.f) degrees slot.now (Query.Extend s v.now)) }
{
    // This call is made for its clauses alone.
    let _present = slot.now();
    let f = slot.field();
    let sections = member(&cohomology.bases, 0);
    match extend(alloc, &f, slot.base(), sections, s, v)? {
        Extension::Section(z) => Ok(Reply::Section {
            s,
            z: Listed::of(z.values),
        }),
        Extension::NoSection(functional) => Ok(Reply::NoSection {
            s,
            functional: Listed::of(functional),
        }),
    }
}
