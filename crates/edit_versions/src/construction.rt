ghost use Rattle.std.specs.Prelude.{◌≡◌, ◌≤◌, ℕ, List, None, Some, Ok, length, OnOk, IsErrOf};
ghost use Rattle.cell_complex.specs.Invariants.{IsComplex};
ghost use Rattle.dense_blocks.specs.declared.block.Block.{Block};
ghost use Rattle.sheaf_words.specs.declared.edit.Cause.{Cause};
ghost use Rattle.edit_versions.specs.Edits.{set_fault, sets_made};
ghost use Rattle.edit_versions.specs.Works.{IsWork, IsTouched, TakesSet, work_lists};

use crate::fault::EditFault;
use crate::judgement::fault_of;
use crate::work::Work;
use cell_complex::Complex;
use dense_blocks::Scalars;
use sheaf_words::Set;
use std::alloc::Global;

/// Makes all sets, in order.
///
/// # Errors
///
/// `Refused` with the fault of the first set that has one.
pub(crate) fn make_sets<F: Scalars>(
    alloc: Global,
    f: &F,
    c: &Complex,
    work: &mut Work,
    sets: &[Set],
) -> Result<(), EditFault>
    requires complex { IsComplex c.now }
    requires work { IsWork (F.ops f.now) c.now work.old }
    requires few { length sets.now ≤ 1000000000 }
    ensures made { OnOk result
        (sets_made (F.ops f.now) c.now (work_lists work.old) 0 sets.now ≡ Ok (work_lists work.new)) }
    ensures refused { (cause : Cause) → IsErrOf result (EditFault.Refused cause)
        → sets_made (F.ops f.now) c.now (work_lists work.old) 0 sets.now ≡ Err cause }
    ensures work { OnOk result (IsWork (F.ops f.now) c.now work.new) }
    ensures touched { (start : List Block) → IsTouched c.now start work.old
        → OnOk result (IsTouched c.now start work.new) }
{
    for (i, set) in sets.iter().enumerate() {
        make_set(alloc, f, c, work, i as u32, set)?;
    }
    Ok(())
}

/// Makes one set, which stands at the place `i`.
fn make_set<F: Scalars>(
    alloc: Global,
    f: &F,
    c: &Complex,
    work: &mut Work,
    i: u32,
    set: &Set,
) -> Result<(), EditFault>
    requires complex { IsComplex c.now }
    requires work { IsWork (F.ops f.now) c.now work.old }
    ensures judged { OnOk result (set_fault (F.ops f.now) c.now work.old.stalks.items i set.now ≡ None) }
    ensures refused { (cause : Cause) → IsErrOf result (EditFault.Refused cause)
        → set_fault (F.ops f.now) c.now work.old.stalks.items i set.now ≡ Some cause }
    ensures made { OnOk result (TakesSet c.now set.now work.old work.new) }
{
    if let Some(cause) = fault_of(f, c, &work.stalks, i, set) {
        return Err(EditFault::Refused(cause));
    }
    match set {
        Set::Stalk { s, n } => work.set_stalk(alloc, c, *s, *n)?,
        Set::Restrict { s, t, entries } => {
            work.set_restriction(alloc, c, *s, *t, entries.as_slice())?
        }
    }
    Ok(())
}
