//! Joined matrices, made and compared.
ghost use Rattle.std.specs.Prelude.{◌≡◌, [], ◌∷◌};

use crate::samples::{MATRIX, fork};
use block_grids::{first_other, grid};
use block_sparse::Blocks;
use dense_blocks::Block;
use std::alloc::{AllocError as NoMemory, Global};

#[test]
fn joins_the_fork(rt: HostRuntime) -> Result<(), NoMemory> {
    let fork = fork(&rt, rt.alloc())?;
    let all = grid(rt.alloc(), &fork, &[(0, 1), (1, 2)], &[(2, 1), (3, 2)])?;
    assert!(rt; all.entries.as_slice() == MATRIX.as_slice());
    Ok(())
}

/// Where the fork first differs from these entries.
fn other(alloc: Global, fork: &Blocks, entries: [u8; 9]) -> Result<Option<(u32, u32)>, NoMemory>
    requires { fork.now.live ≡ (0, 0, 1) ∷ (1, 0, 2) ∷ (2, 1, 1) ∷ (3, 1, 2) ∷ [] }
{
    let joined = Block::of(alloc, 3, 3, &entries)?;
    Ok(first_other(fork, &[(0, 1), (1, 2)], &[(2, 1), (3, 2)], &joined))
}

#[test]
fn compares_the_fork(rt: HostRuntime) -> Result<(), NoMemory> {
    let fork = fork(&rt, rt.alloc())?;
    assert!(rt; other(rt.alloc(), &fork, MATRIX)?.is_none());
    // Others at (1, 2) and (0, 3).
    assert!(rt; other(rt.alloc(), &fork, [1, 1, 1, 0, 1, 1, 1, 0, 1])? == Some((0, 3)));
    Ok(())
}

/// Whether the row of 2, but for a cell, has these entries.
fn is_row(alloc: Global, fork: &Blocks, but: u32, entries: [u8; 3]) -> Result<bool, NoMemory>
    requires { fork.now.live ≡ (0, 0, 1) ∷ (1, 0, 2) ∷ (2, 1, 1) ∷ (3, 1, 2) ∷ [] }
{
    let joined = Block::of(alloc, 1, 3, &entries)?;
    Ok(fork.same_row(but, 2, &[(0, 1), (1, 2)], &joined))
}

#[test]
fn compares_a_row(rt: HostRuntime) -> Result<(), NoMemory> {
    let fork = fork(&rt, rt.alloc())?;
    // Zeros for a block; and one that is left out.
    assert!(rt; !is_row(rt.alloc(), &fork, 9, [0, 0, 1])?);
    assert!(rt; is_row(rt.alloc(), &fork, 0, [0, 0, 1])?);
    Ok(())
}

/// Whether the column of 1, but for a cell, has these entries.
fn is_column(alloc: Global, fork: &Blocks, but: u32, entries: [u8; 6]) -> Result<bool, NoMemory>
    requires { fork.now.live ≡ (0, 0, 1) ∷ (1, 0, 2) ∷ (2, 1, 1) ∷ (3, 1, 2) ∷ [] }
{
    let joined = Block::of(alloc, 3, 2, &entries)?;
    Ok(fork.same_column(1, but, &[(2, 1), (3, 2)], &joined))
}

#[test]
fn compares_a_column(rt: HostRuntime) -> Result<(), NoMemory> {
    let fork = fork(&rt, rt.alloc())?;
    // Zeros for a block; and one that is left out.
    assert!(rt; !is_column(rt.alloc(), &fork, 9, [0, 1, 0, 0, 0, 0])?);
    assert!(rt; is_column(rt.alloc(), &fork, 3, [0, 1, 0, 0, 0, 0])?);
    Ok(())
}
