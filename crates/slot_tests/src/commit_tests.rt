//! The circle over the field of two elements: the edges 3, 4 and 5 go from 0 to 1, from 1 to 2 and from 0 to 2.
use crate::samples::{Entry, circle};
use crate::steps::{commit, has_left, is_finished, next_foot, record, step};
use field_table::Field;
use pair_commit::{CommitFault, Slot};
use std::alloc::{AllocError as NoMemory, Global};
use std::process::Abort;

const ENTRIES: [Entry; 6] = [
    (0, 3, 1),
    (1, 3, 1),
    (1, 4, 1),
    (2, 4, 1),
    (0, 5, 1),
    (2, 5, 1),
];

/// What comes of a commit of (1, 4), whose footprint was taken before the commit of (0, 3).
fn commit_late(
    rt: &impl Abort,
    alloc: Global,
    slot: &mut Slot<Field>,
) -> Result<Result<(), CommitFault>, NoMemory> {
    let second = record(rt, alloc, slot, (1, 4))?;
    assert!(rt; step(rt, alloc, slot)?);
    Ok(commit(rt, slot, second))
}

/// Whether 5 alone is below at the footprint of (1, 4).
fn has_below(rt: &impl Abort, slot: &mut Slot<Field>) -> Result<bool, NoMemory> {
    let foot = next_foot(rt, slot, (1, 4))?;
    Ok(foot.x == 1 && foot.y == 4 && foot.below.as_slice() == [(5, 1)].as_slice())
}

/// Of (1, 4) the cell 2 is on the left and 3 below. The removal of (0, 3) takes 3 away, so (1, 3) is the first pair
/// that differs; and it puts a block from 1 to 5, so then 5 is below.
fn refuses_second(rt: &impl Abort, alloc: Global, slot: &mut Slot<Field>) -> Result<(), NoMemory> {
    let late = commit_late(rt, alloc, slot)?;
    assert!(rt; matches!(late, Err(CommitFault::Stale { s: 1, t: 3 })));
    assert!(rt; has_below(rt, slot)?);
    Ok(())
}

#[test]
fn refuses_a_stale_record(rt: HostRuntime) -> Result<(), NoMemory> {
    let mut slot = circle(&rt, rt.alloc(), Field::Two, &ENTRIES)?;
    refuses_second(&rt, rt.alloc(), &mut slot)
}

/// From 2 to 5 the two removals leave 1 - 1 = 0.
fn removes_two(rt: &impl Abort, alloc: Global, slot: &mut Slot<Field>) -> Result<(), NoMemory> {
    assert!(rt; step(rt, alloc, slot)?);
    assert!(rt; step(rt, alloc, slot)?);
    assert!(rt; is_finished(slot)? && has_left(slot, &[(2, 0, 1), (5, 1, 1)], 2));
    Ok(())
}

#[test]
fn reduces_the_circle(rt: HostRuntime) -> Result<(), NoMemory> {
    let mut slot = circle(&rt, rt.alloc(), Field::Two, &ENTRIES)?;
    removes_two(&rt, rt.alloc(), &mut slot)
}
