//! Steps of the reduction of the circle, worked by hand over the field of three elements: minus is 2.
use crate::samples::{Entry, cells, has_all, put, put_all};
use block_sparse::Blocks;
use dense_blocks::{Scalars, Two};
use field_table::Field;
use reduce_step::{Differs, Finish, Footprint, Record, Step};
use std::alloc::{AllocError as NoMemory, Global};
use std::process::Abort;

/// The vertices 0, 1 and 2, and the edges 3, 4 and 5.
const CELLS: [(u32, u8, u8); 6] = [
    (0, 0, 1),
    (1, 0, 1),
    (2, 0, 1),
    (3, 1, 1),
    (4, 1, 1),
    (5, 1, 1),
];

/// The edges go from 0 to 1, from 1 to 2 and from 0 to 2: 2 stands at the first vertex, and 1 at the second.
const ENTRIES: [Entry; 6] = [
    (0, 3, 2),
    (1, 3, 1),
    (1, 4, 2),
    (2, 4, 1),
    (0, 5, 2),
    (2, 5, 1),
];

fn circle(rt: &impl Abort, alloc: Global) -> Result<Blocks, NoMemory> {
    let mut b = cells(rt, alloc, &CELLS)?;
    put_all(rt, alloc, &mut b, &ENTRIES)?;
    Ok(b)
}

/// The footprint of a pair where a square block stands.
fn footprint(
    rt: &impl Abort,
    alloc: Global,
    b: &Blocks,
    x: u32,
    y: u32,
) -> Result<Footprint, NoMemory> {
    assert!(rt; b.get(x, y).is_some() && b.size(x) == b.size(y));
    Footprint::copy(alloc, b, x, y)
}

/// What becomes of a footprint of scalars of the field.
fn finished<F: Scalars>(
    rt: &impl Abort,
    alloc: Global,
    f: &F,
    foot: Footprint,
) -> Result<Finish<F>, NoMemory> {
    assert!(rt; foot.is_over(f));
    match foot.finish(alloc, f) {
        Ok(finish) => Ok(finish),
        Err((_, fault)) => Err(fault),
    }
}

fn made(rt: &impl Abort, finish: Finish<Field>) -> Record<Field> {
    match finish {
        Finish::Made(record) => record,
        Finish::Singular { .. } => panic!(rt; "no inverse"),
    }
}

/// The record of a pair where a block stands that has an inverse.
fn record(
    rt: &impl Abort,
    alloc: Global,
    b: &Blocks,
    x: u32,
    y: u32,
) -> Result<Record<Field>, NoMemory> {
    let foot = footprint(rt, alloc, b, x, y)?;
    let finish = finished(rt, alloc, &Field::Three, foot)?;
    Ok(made(rt, finish))
}

/// Applies a record that fits.
fn apply(rt: &impl Abort, b: &mut Blocks, record: Record<Field>) -> Result<Step, NoMemory> {
    assert!(rt; b.is_over(&record.f));
    match record.fits(b) {
        Ok(()) => match record.apply(b) {
            Ok(step) => Ok(step),
            Err((_, fault)) => Err(fault),
        },
        Err(_) => panic!(rt; "another block"),
    }
}

/// Whether this is the footprint of (0, 3): to 3 goes 1 from 1 too, and from 0 goes 2 to 5 too.
fn is_first(foot: &Footprint) -> bool {
    foot.left.as_slice() == [(1, 1)].as_slice()
        && foot.below.as_slice() == [(5, 1)].as_slice()
        && foot.pivot.entries.as_slice() == [2].as_slice()
        && foot.row.entries.as_slice() == [1].as_slice()
        && foot.column.entries.as_slice() == [2].as_slice()
        && foot.corners.entries.as_slice() == [0].as_slice()
}

/// Whether this is its step: the inverse of 2 is 2.
fn is_first_step(step: &Step) -> bool {
    step.x == 0 && step.y == 3 && step.inverse.entries.as_slice() == [2].as_slice()
}

/// What the removal of (0, 3) leaves: from 1 to 5 goes 0 - 2 * 2 * 1, which is 2.
const LEFT: [Entry; 4] = [(1, 4, 2), (2, 4, 1), (1, 5, 2), (2, 5, 1)];

#[test]
fn removes_a_pair_of_the_circle(rt: HostRuntime) -> Result<(), NoMemory> {
    let mut b = circle(&rt, rt.alloc())?;
    let record = record(&rt, rt.alloc(), &b, 0, 3)?;
    assert!(rt; is_first(&record.foot));
    let step = apply(&rt, &mut b, record)?;
    assert!(rt; is_first_step(&step));
    assert!(rt; b.live().len() == 4 && has_all(&b, &LEFT));
    Ok(())
}

/// Whether the pivot from 0 to 1 has no inverse, and sends this vector to zero.
fn is_singular(finish: &Finish<Two>, vector: &[u8]) -> bool {
    match finish {
        Finish::Made(_) => false,
        Finish::Singular { x, y, kernel, .. } => {
            *x == 0 && *y == 1 && kernel.as_slice() == vector
        }
    }
}

#[test]
fn finds_a_singular_pivot(rt: HostRuntime) -> Result<(), NoMemory> {
    let mut b = cells(&rt, rt.alloc(), &[(0, 0, 2), (1, 1, 2)])?;
    put(&rt, rt.alloc(), &mut b, (0, 1), 2, &[1, 1, 1, 1])?;
    let foot = footprint(&rt, rt.alloc(), &b, 0, 1)?;
    let finish = finished(&rt, rt.alloc(), &Two, foot)?;
    assert!(rt; is_singular(&finish, &[1, 1]));
    Ok(())
}

/// The record of (1, 4) has the cell 2 on the left and 3 below.
#[test]
fn finds_the_cell_that_is_gone(rt: HostRuntime) -> Result<(), NoMemory> {
    let mut b = circle(&rt, rt.alloc())?;
    let record = record(&rt, rt.alloc(), &b, 1, 4)?;
    b.remove_cell(2);
    assert!(rt; record.fits(&b) == Err(Differs { s: 2, t: 3 }));
    Ok(())
}
