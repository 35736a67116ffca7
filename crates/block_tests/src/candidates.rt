//! The order of the candidates, which are (0, 2) and (1, 3) in the fork.
use crate::samples::{flag, fork};
use pair_find::next_candidate;
use std::alloc::AllocError as NoMemory;

#[test]
fn finds_the_next(rt: HostRuntime) -> Result<(), NoMemory> {
    let fork = fork(&rt, rt.alloc())?;
    assert!(rt; next_candidate(&fork, (0, 3)) == Some((1, 3)));
    assert!(rt; next_candidate(&fork, (1, 4)) == Some((0, 2)));
    Ok(())
}

#[test]
fn passes_flags(rt: HostRuntime) -> Result<(), NoMemory> {
    let mut fork = fork(&rt, rt.alloc())?;
    flag(&rt, &mut fork, 0, 2);
    assert!(rt; next_candidate(&fork, (2, 0)) == Some((1, 3)));
    flag(&rt, &mut fork, 1, 3);
    assert!(rt; next_candidate(&fork, (1, 3)).is_none());
    Ok(())
}
