//! Pivots of the circle over the field of three elements, carried over to a circle with one other block: minus is 2.
use crate::samples::{Entry, circle, put_all};
use crate::steps::{carried_step, has_left, is_finished, step, take};
use block_sparse::Blocks;
use field_table::Field;
use pair_commit::{Slot, Work};
use std::alloc::{AllocError as NoMemory, Global};
use std::process::Abort;

/// The edges go from 0 to 1, from 1 to 2 and from 0 to 2: 2 stands at the first vertex, and 1 at the second.
const ENTRIES: [Entry; 6] = [
    (0, 3, 2),
    (1, 3, 1),
    (1, 4, 2),
    (2, 4, 1),
    (0, 5, 2),
    (2, 5, 1),
];

/// The blocks with this one in the place of another.
fn changed(
    rt: &impl Abort,
    alloc: Global,
    base: &Blocks,
    entry: Entry,
) -> Result<Blocks, NoMemory> {
    let mut b = base.copy(alloc)?;
    put_all(rt, alloc, &mut b, &[entry])?;
    Ok(b)
}

/// The slot of these blocks, to which the pivots of another are carried.
fn carry(
    rt: &impl Abort,
    alloc: Global,
    slot: &Slot<Field>,
    b: Blocks,
) -> Result<Slot<Field>, NoMemory> {
    assert!(rt; b.is_over(&slot.field()) && b.has_no_flags());
    let kept = slot.keep()?;
    Slot::start(alloc, slot.field(), b, kept)
}

/// The slot of the circle with this block in the place of another, to which the pivots of (0, 3) and (1, 4) are
/// carried, which the slot of the circle removes first.
fn reduce_and_carry(
    rt: &impl Abort,
    alloc: Global,
    slot: &mut Slot<Field>,
    entry: Entry,
) -> Result<Slot<Field>, NoMemory> {
    assert!(rt; step(rt, alloc, slot)?);
    assert!(rt; step(rt, alloc, slot)?);
    let b = changed(rt, alloc, slot.base(), entry)?;
    carry(rt, alloc, slot, b)
}

/// The slot of the circle with this block in the place of another, to which two pivots are carried.
fn next(rt: &impl Abort, alloc: Global, entry: Entry) -> Result<Slot<Field>, NoMemory> {
    let mut slot = circle(rt, alloc, Field::Three, &ENTRIES)?;
    reduce_and_carry(rt, alloc, &mut slot, entry)
}

/// How many steps a copy of the slot has made after that of (0, 3).
fn steps_of_copy(rt: &impl Abort, alloc: Global, slot: &Slot<Field>) -> Result<usize, NoMemory> {
    let mut copy = slot.copy(alloc)?;
    assert!(rt; carried_step(rt, alloc, &mut copy, (0, 3, 2))?);
    Ok(copy.log().len())
}

/// With 2 from 2 to 5 both pivots stand; the inverse of 2 is 2. The removal of (0, 3) leaves 0 - 2 * 2 * 1 = 2 from 1
/// to 5, that of (1, 4) leaves 2 - 2 * 2 * 1 = 1 from 2 to 5, and so (2, 5) is left to be tried.
fn uses_both(rt: &impl Abort, alloc: Global, slot: &mut Slot<Field>) -> Result<(), NoMemory> {
    assert!(rt; steps_of_copy(rt, alloc, slot)? == 1);
    assert!(rt; carried_step(rt, alloc, slot, (0, 3, 2))?);
    assert!(rt; carried_step(rt, alloc, slot, (1, 4, 2))?);
    assert!(rt; step(rt, alloc, slot)?);
    assert!(rt; is_finished(slot)? && has_left(slot, &[], 3));
    Ok(())
}

#[test]
fn carries_pivots_over(rt: HostRuntime) -> Result<(), NoMemory> {
    let mut slot = next(&rt, rt.alloc(), (2, 5, 2))?;
    uses_both(&rt, rt.alloc(), &mut slot)
}

/// Whether the pivot of (0, 3) is dropped.
fn drops_first(slot: &mut Slot<Field>) -> Result<bool, NoMemory> {
    let work = take(slot, (0, 0))?;
    Ok(matches!(work, Work::Dropped { x: 0, y: 3 }))
}

/// With 1 from 0 to 3 the pivot of (0, 3) no longer stands, and that of (1, 4) does.
fn uses_second(rt: &impl Abort, alloc: Global, slot: &mut Slot<Field>) -> Result<(), NoMemory> {
    assert!(rt; drops_first(slot)?);
    assert!(rt; carried_step(rt, alloc, slot, (1, 4, 2))?);
    Ok(())
}

#[test]
fn drops_a_pivot(rt: HostRuntime) -> Result<(), NoMemory> {
    let mut slot = next(&rt, rt.alloc(), (0, 3, 1))?;
    uses_second(&rt, rt.alloc(), &mut slot)
}
