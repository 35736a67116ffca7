ghost use Rattle.std.specs.Prelude.{◌≡◌, ◌≤◌, ℕ, length, map, sum, OnOk, OnErr, IsErrOf};
ghost use Rattle.sheaf_words.specs.declared.edit.Cause.{Cause};
ghost use Rattle.sheaf_words.specs.declared.edit.Verdict.{Verdict};
ghost use Rattle.sheaf_words.specs.declared.edit.Verdict.TheVariants.{Accepted, Refused};
ghost use Rattle.dense_blocks.specs.Blocks.{written_matrix};
ghost use Rattle.edit_versions.specs.Faults.{Tells};
ghost use Rattle.edit_versions.specs.Verdicts.{IsSquareVerdict, IsVerdict, IsEdited};
ghost use Rattle.edit_versions.specs.Works.{IsWork, IsTouched};

use crate::construction::make_sets;
use crate::fault::EditFault;
use crate::work::Work;
use dense_blocks::{Listed, Scalars};
use sheaf_data::{Sheaf, stalks_fit};
use sheaf_words::{Cause, Edit};
use std::alloc::Global;

/// Makes the edit, or refuses it by the verdict on it.
///
/// The sets are taken in order. The size of a stalk makes every block at that cell the zero block, also where the size
/// stays; the entries of a restriction replace its block. All memory is taken before the first change. An edit of one
/// face costs the copy of the stalks and the blocks, and the squares at that face.
///
/// # Errors
///
/// `Refused` with the cause, and `NoMemory`; the sheaf is then as it was. The first set that is at fault decides, with
/// its place from 0 on: `NoCell` for a stalk of no cell, `NoFace` for a restriction of no face; `StalkLimit` for a size
/// above 16; `Shape` where the entries are not as many as the sizes so far ask for; `Entry` for an entry that is no
/// scalar. After all sets: `TotalLimit` where the sizes add up to more than 4,096, else `Square` with the first pair of
/// cells, in order, whose square does not commute.
pub fn apply<F: Scalars>(alloc: Global, sheaf: &mut Sheaf<F>, edit: &Edit) -> Result<(), EditFault>
    requires { length edit.now.sets ≤ 1000000000 }
    ensures told { (v : Verdict) → IsVerdict (F.ops sheaf.old.field) sheaf.old edit.now v → Tells result v }
    ensures accepted { OnOk result (IsVerdict (F.ops sheaf.old.field) sheaf.old edit.now Accepted) }
    ensures refused { (cause : Cause) → IsErrOf result (EditFault.Refused cause)
        → IsVerdict (F.ops sheaf.old.field) sheaf.old edit.now (Refused cause) }
    ensures edited { OnOk result (IsEdited (F.ops sheaf.old.field) sheaf.old edit.now sheaf.new) }
    ensures err { OnErr result (sheaf.new ≡ sheaf.old) }
{
    apply_sets(alloc, sheaf, edit)
}

/// Makes all sets, or none.
fn apply_sets<F: Scalars>(alloc: Global, sheaf: &mut Sheaf<F>, edit: &Edit) -> Result<(), EditFault>
    requires { length edit.now.sets ≤ 1000000000 }
    ensures accepted { OnOk result (IsVerdict (F.ops sheaf.old.field) sheaf.old edit.now Accepted) }
    ensures refused { (cause : Cause) → IsErrOf result (EditFault.Refused cause)
        → IsVerdict (F.ops sheaf.old.field) sheaf.old edit.now (Refused cause) }
    ensures edited { OnOk result (IsEdited (F.ops sheaf.old.field) sheaf.old edit.now sheaf.new) }
    ensures err { OnErr result (sheaf.new ≡ sheaf.old) }
{
    let draft = sheaf.draft();
    let complex = &draft.complex;
    let dims = complex.dims();
    let mut work = Work::of(alloc, draft.stalks.as_slice(), draft.blocks.as_slice())?;
    make_sets(
        alloc,
        &draft.field,
        complex,
        &mut work,
        edit.sets.as_slice(),
    )?;
    if !stalks_fit(dims, &work.stalks) {
        return Err(EditFault::Refused(Cause::TotalLimit));
    }
    put_work(sheaf, work)
}

/// Puts what the sets made in place of what was there, if all squares commute.
fn put_work<F: Scalars>(sheaf: &mut Sheaf<F>, work: Work) -> Result<(), EditFault>
    requires work { IsWork (F.ops sheaf.old.field) sheaf.old.complex work }
    requires few { sum work.stalks.items ≤ 4096 }
    requires touched { IsTouched sheaf.old.complex sheaf.old.blocks work }
    ensures accepted { OnOk result (IsSquareVerdict (F.ops sheaf.old.field) sheaf.old.complex
        (map written_matrix work.blocks.items) Accepted) }
    ensures refused { (cause : Cause) → IsErrOf result (EditFault.Refused cause)
        → IsSquareVerdict (F.ops sheaf.old.field) sheaf.old.complex
        (map written_matrix work.blocks.items) (Refused cause) }
    ensures ok { OnOk result (sheaf.new ≡ record sheaf.old { stalks = work.stalks.items; blocks = work.blocks.items }) }
    ensures err { OnErr result (sheaf.new ≡ sheaf.old) }
{
    let Work {
        stalks,
        blocks,
        touched,
    } = work;
    match sheaf.put_all(Listed::of(stalks), Listed::of(blocks), &touched) {
        Ok(()) => Ok(()),
        Err((s, u)) => Err(EditFault::Refused(Cause::Square { s, u })),
    }
}
