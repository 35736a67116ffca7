//! Blocks put, read, flagged and taken away.
use crate::samples::{CELLS, flag, fork, lists, stands};
use block_sparse::Blocks;
use dense_blocks::Block;
use std::alloc::{AllocError as NoMemory, Global};
use std::process::Abort;

#[test]
fn keeps_cells(rt: HostRuntime) -> Result<(), NoMemory> {
    let fork = fork(&rt, rt.alloc())?;
    assert!(rt; fork.live() == CELLS.as_slice());
    assert!(rt; fork.size(3) == 2 && fork.size(4) == 0 && fork.cell_and_size(1) == (1, 2));
    Ok(())
}

#[test]
fn copies_blocks(rt: HostRuntime) -> Result<(), NoMemory> {
    let fork = fork(&rt, rt.alloc())?;
    let copy = fork.copy(rt.alloc())?;
    assert!(rt; lists(&copy, 1, &[], &[2, 3]) && lists(&copy, 2, &[0, 1], &[]));
    assert!(rt; stands(&copy, 1, 3, &[1, 1, 0, 1]));
    Ok(())
}

/// Puts a block of these entries.
fn put(rt: &impl Abort, blocks: &mut Blocks, s: u32, t: u32, b: Block) -> Result<(), NoMemory> {
    assert!(rt; blocks.fits(s, t, &b));
    match blocks.set(s, t, b) {
        Ok(()) => Ok(()),
        Err((_, fault)) => Err(fault),
    }
}

#[test]
fn clears_flags(rt: HostRuntime) -> Result<(), NoMemory> {
    let mut fork = fork(&rt, rt.alloc())?;
    flag(&rt, &mut fork, 1, 2);
    flag(&rt, &mut fork, 1, 3);
    let ones = Block::of(rt.alloc(), 1, 2, &[1, 1])?;
    put(&rt, &mut fork, 1, 2, ones)?;
    assert!(rt; stands(&fork, 1, 2, &[1, 1]));
    assert!(rt; !fork.has_flag(1, 2) && fork.has_flag(1, 3));
    Ok(())
}

/// A zero block for a pair where one stands.
fn list(alloc: Global) -> Result<Vec<(u32, u32, Block)>, NoMemory> {
    let mut list = Vec::new(alloc);
    let zero = Block::zero(alloc, 1, 2)?;
    list.push((1, 2, zero))?;
    Ok(list)
}

#[test]
fn sets_a_list(rt: HostRuntime) -> Result<(), NoMemory> {
    let mut fork = fork(&rt, rt.alloc())?;
    let list = list(rt.alloc())?;
    assert!(rt; fork.all_fit(&list));
    assert!(rt; fork.set_all(list).is_ok());
    assert!(rt; lists(&fork, 1, &[], &[3]) && lists(&fork, 2, &[0], &[]));
    Ok(())
}

#[test]
fn removes_a_cell(rt: HostRuntime) -> Result<(), NoMemory> {
    let mut fork = fork(&rt, rt.alloc())?;
    fork.remove_cell(2);
    assert!(rt; fork.size(2) == 0 && lists(&fork, 2, &[], &[]));
    assert!(rt; lists(&fork, 0, &[], &[]) && lists(&fork, 1, &[], &[3]));
    Ok(())
}
