//! Maps worked by hand, of the circle over the field of three elements: minus is 2.
use crate::samples::{CIRCLE, EMPTY, maps_of};
use dense_blocks::{Block, Listed};
use equivalences::Equivalence;
use std::alloc::AllocError as NoMemory;

/// Whether member `k` has these numbers of rows and columns and these entries.
pub(crate) fn has(blocks: &Listed<Block>, k: usize, rows: u32, cols: u32, entries: &[u8]) -> bool {
    match blocks.as_slice().get(k) {
        Some(block) => {
            block.rows == rows && block.cols == cols && block.entries.as_slice() == entries
        }
        None => false,
    }
}

/// Whether these are the maps where (0, 3) and then (1, 4) are removed, and 2 and 5 are left.
fn are_of_circle(e: &Equivalence) -> bool {
    has(&e.pi, 0, 1, 3, &[0, 0, 1])
        && has(&e.pi, 1, 1, 3, &[2, 2, 1])
        && has(&e.iota, 0, 3, 1, &[1, 1, 1])
        && has(&e.iota, 1, 3, 1, &[0, 0, 1])
        && has(&e.h, 0, 3, 3, &[2, 2, 0, 0, 2, 0, 0, 0, 0])
        && has(&e.h, 1, 3, 0, &[])
}

#[test]
fn has_the_maps_of_the_circle(rt: HostRuntime) -> Result<(), NoMemory> {
    let e = maps_of(&rt, rt.alloc(), CIRCLE, 2)?;
    assert!(rt; are_of_circle(&e));
    Ok(())
}

/// Whether these are the maps of the circle where nothing is removed: identities, and zero.
fn are_identities(e: &Equivalence) -> bool {
    let one = [1, 0, 0, 0, 1, 0, 0, 0, 1];
    has(&e.pi, 0, 3, 3, &one)
        && has(&e.pi, 1, 3, 3, &one)
        && has(&e.iota, 0, 3, 3, &one)
        && has(&e.iota, 1, 3, 3, &one)
        && has(&e.h, 0, 3, 3, &[0; 9])
        && has(&e.h, 1, 3, 0, &[])
}

#[test]
fn has_identities_without_a_removal(rt: HostRuntime) -> Result<(), NoMemory> {
    let e = maps_of(&rt, rt.alloc(), CIRCLE, 0)?;
    assert!(rt; are_identities(&e));
    Ok(())
}

/// Whether the maps have no rows and no columns in the first degree and in the last.
fn are_empty(e: &Equivalence) -> bool {
    has(&e.pi, 0, 0, 0, &[]) && has(&e.iota, 0, 0, 0, &[]) && has(&e.h, 15, 0, 0, &[])
}

#[test]
fn has_nothing_without_cells(rt: HostRuntime) -> Result<(), NoMemory> {
    let e = maps_of(&rt, rt.alloc(), EMPTY, 0)?;
    assert!(rt; are_empty(&e));
    Ok(())
}
