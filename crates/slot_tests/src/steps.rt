//! Steps of a slot.
ghost use Rattle.std.specs.Prelude.{◌≡◌, IfOk};
ghost use Rattle.field_table.specs.Table.{ops_of};
ghost use Rattle.dense_blocks.specs.Inverses.{IsInverseBlock};
ghost use Rattle.reduce_step.specs.Footprints.{IsOverField};
ghost use Rattle.pair_commit.specs.Takes.{MayFinish};

use crate::samples::Entry;
use dense_blocks::Block;
use field_table::Field;
use pair_commit::{CommitFault, Slot, Work};
use reduce_step::{Finish, Footprint, Record};
use std::alloc::{AllocError as NoMemory, Global};
use std::process::Abort;

/// What is to be tried next. Says less than the slot's call: proofs of what calls this one are shorter.
pub(crate) fn take(slot: &mut Slot<Field>, from: (u32, u32)) -> Result<Work, NoMemory>
    ensures may_finish { IfOk result (MayFinish (ops_of slot.old.f)) }
    ensures field { slot.new.f ≡ slot.old.f }
{
    slot.take(from)
}

/// The footprint to be tried from a pair on, where nothing is carried.
pub(crate) fn next_foot(
    rt: &impl Abort,
    slot: &mut Slot<Field>,
    from: (u32, u32),
) -> Result<Footprint, NoMemory> {
    match take(slot, from)? {
        Work::Try(foot) => Ok(foot),
        _ => panic!(rt; "no footprint to be tried"),
    }
}

fn made(rt: &impl Abort, finish: Finish<Field>) -> Record<Field> {
    match finish {
        Finish::Made(record) => record,
        Finish::Singular { .. } => panic!(rt; "no inverse"),
    }
}

/// The record of a footprint of scalars of the field, whose pivot has an inverse.
fn finish(
    rt: &impl Abort,
    alloc: Global,
    f: Field,
    foot: Footprint,
) -> Result<Record<Field>, NoMemory> {
    assert!(rt; foot.is_over(&f));
    match foot.finish(alloc, &f) {
        Ok(finish) => Ok(made(rt, finish)),
        Err((_, fault)) => Err(fault),
    }
}

/// The record of the footprint to be tried from a pair on.
pub(crate) fn record(
    rt: &impl Abort,
    alloc: Global,
    slot: &mut Slot<Field>,
    from: (u32, u32),
) -> Result<Record<Field>, NoMemory> {
    let foot = next_foot(rt, slot, from)?;
    finish(rt, alloc, slot.field(), foot)
}

/// Commits a record over the slot's field.
pub(crate) fn commit(
    rt: &impl Abort,
    slot: &mut Slot<Field>,
    record: Record<Field>,
) -> Result<(), CommitFault> {
    assert!(rt; record.f == slot.field());
    slot.commit(record)
}

/// Whether the record of the first candidate is committed.
pub(crate) fn step(
    rt: &impl Abort,
    alloc: Global,
    slot: &mut Slot<Field>,
) -> Result<bool, NoMemory> {
    let record = record(rt, alloc, slot, (0, 0))?;
    Ok(commit(rt, slot, record).is_ok())
}

/// Whether a pivot is carried whose record is committed; it is of the pair of `wanted`, with its entry as the inverse.
pub(crate) fn carried_step(
    rt: &impl Abort,
    alloc: Global,
    slot: &mut Slot<Field>,
    wanted: Entry,
) -> Result<bool, NoMemory> {
    match take(slot, (0, 0))? {
        Work::Carried(foot, inverse) => {
            assert!(rt; is_entry(&foot, &inverse, wanted));
            finish_carried(rt, alloc, slot, foot, inverse)
        }
        _ => Ok(false),
    }
}

fn is_entry(foot: &Footprint, inverse: &Block, wanted: Entry) -> bool {
    foot.x == wanted.0 && foot.y == wanted.1 && inverse.entries.as_slice() == [wanted.2].as_slice()
}

/// Whether the record with this inverse is committed.
fn finish_carried(
    rt: &impl Abort,
    alloc: Global,
    slot: &mut Slot<Field>,
    foot: Footprint,
    inverse: Block,
) -> Result<bool, NoMemory>
    requires over { IsOverField (ops_of slot.old.f) foot }
    requires inverse { IsInverseBlock (ops_of slot.old.f) foot.pivot inverse }
{
    match foot.finish_with(alloc, &slot.field(), inverse) {
        Ok(record) => Ok(commit(rt, slot, record).is_ok()),
        Err((_, _, fault)) => Err(fault),
    }
}

/// Whether nothing is left to be tried.
pub(crate) fn is_finished(slot: &mut Slot<Field>) -> Result<bool, NoMemory> {
    let work = take(slot, (0, 0))?;
    Ok(matches!(work, Work::Finished))
}

/// Whether these cells are left of six, after as many steps.
pub(crate) fn has_left(slot: &Slot<Field>, cells: &[(u32, u8, u8)], steps: usize) -> bool {
    slot.base().live().len() == 6 && slot.now().live() == cells && slot.log().len() == steps
}
