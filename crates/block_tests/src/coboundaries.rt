//! The coboundary of a cochain over the field of two elements.
use crate::samples::fork;
use block_sparse::Blocks;
use dense_blocks::{Two, all_scalars};
use std::alloc::{AllocError as NoMemory, Global};
use std::process::Abort;

fn coboundary(
    rt: &impl Abort,
    alloc: Global,
    blocks: &Blocks,
    k: u8,
    z: &[u8],
) -> Result<Vec<u8>, NoMemory> {
    assert!(rt; blocks.is_over(&Two));
    assert!(rt; z.len() == blocks.coordinates(k));
    assert!(rt; all_scalars(&Two, z));
    blocks.apply(alloc, &Two, k, z)
}

#[test]
fn applies_the_fork(rt: HostRuntime) -> Result<(), NoMemory> {
    let fork = fork(&rt, rt.alloc())?;
    // At 2 the first and the third coordinate, at 3 the second and the third, and the third.
    let w = coboundary(&rt, rt.alloc(), &fork, 0, &[1, 1, 1])?;
    assert!(rt; w.as_slice() == [0, 0, 1].as_slice());
    Ok(())
}

#[test]
fn ends_with_no_coordinates(rt: HostRuntime) -> Result<(), NoMemory> {
    let fork = fork(&rt, rt.alloc())?;
    let w = coboundary(&rt, rt.alloc(), &fork, 1, &[1, 1, 1])?;
    assert!(rt; w.is_empty());
    Ok(())
}
