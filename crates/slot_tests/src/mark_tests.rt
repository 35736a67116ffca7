//! Blocks of two rows over the field of two elements that have no inverse.
use crate::samples::{arrow, start};
use crate::steps::is_finished;
use field_table::Field;
use pair_commit::Slot;
use reduce_step::{Differs, Finish, Footprint};
use std::alloc::{AllocError as NoMemory, Global};
use std::process::Abort;

/// The slot of this block.
fn slot(rt: &impl Abort, alloc: Global, entries: &[u8]) -> Result<Slot<Field>, NoMemory> {
    let b = arrow(rt, alloc, entries)?;
    start(rt, alloc, Field::Two, b)
}

/// The footprint of this block.
fn footprint(rt: &impl Abort, alloc: Global, entries: &[u8]) -> Result<Footprint, NoMemory> {
    let b = arrow(rt, alloc, entries)?;
    assert!(rt; b.get(0, 1).is_some() && b.size(0) == b.size(1));
    Footprint::copy(alloc, &b, 0, 1)
}

/// What comes of a mark on the pivot of this footprint, which has no inverse.
fn mark_pivot(
    rt: &impl Abort,
    alloc: Global,
    slot: &mut Slot<Field>,
    foot: Footprint,
) -> Result<Result<(), Differs>, NoMemory> {
    assert!(rt; foot.is_over(&slot.field()));
    match foot.finish(alloc, &slot.field()) {
        Ok(
            Finish::Singular {
                x,
                y,
                pivot,
                kernel,
            },
        ) => Ok(slot.mark(x, y, &pivot, &kernel)),
        Ok(Finish::Made(_)) => panic!(rt; "an inverse"),
        Err((_, fault)) => Err(fault),
    }
}

/// What comes of a mark on this block.
fn mark(
    rt: &impl Abort,
    alloc: Global,
    slot: &mut Slot<Field>,
    entries: &[u8],
) -> Result<Result<(), Differs>, NoMemory> {
    let foot = footprint(rt, alloc, entries)?;
    mark_pivot(rt, alloc, slot, foot)
}

/// First a block that does not stand there, then the one that does.
fn marks_one(rt: &impl Abort, alloc: Global, slot: &mut Slot<Field>) -> Result<(), NoMemory> {
    let other = mark(rt, alloc, slot, &[1, 0, 1, 0])?;
    assert!(rt; matches!(other, Err(Differs { s: 0, t: 1 })) && !slot.irreducible());
    let own = mark(rt, alloc, slot, &[1, 1, 1, 1])?;
    assert!(rt; own.is_ok() && slot.irreducible());
    assert!(rt; is_finished(slot)?);
    Ok(())
}

#[test]
fn marks_a_singular_block(rt: HostRuntime) -> Result<(), NoMemory> {
    let mut slot = slot(&rt, rt.alloc(), &[1, 1, 1, 1])?;
    marks_one(&rt, rt.alloc(), &mut slot)
}
