ghost use Rattle.std.specs.Prelude.{◌≡◌, ◌++◌, IfOk, OnOk};
ghost use Rattle.pair_commit.specs.Commits.{is_first, without_first};

use crate::kept::Kept;
use std::alloc::{AllocError as NoMemory, Global};
use std::collections::VecDeque;

/// Takes the first member off, if it is of this pair.
pub(crate) fn take_off(carried: &mut VecDeque<Kept>, x: u32, y: u32)
    ensures { carried.new.items ≡ without_first x y carried.old.items }
{
    if is_first(carried, x, y) {
        let _first = carried.pop_front();
    }
}

/// Whether the first member is of this pair.
fn is_first(carried: &VecDeque<Kept>, x: u32, y: u32) -> bool
    ensures { result ≡ is_first x y carried.now.items }
{
    match carried.front() {
        Some(kept) => kept.x == x && kept.y == y,
        None => false,
    }
}

/// The same members.
pub(crate) fn copy_carried(
    alloc: Global,
    carried: &VecDeque<Kept>,
) -> Result<VecDeque<Kept>, NoMemory>
    ensures { IfOk result (λ copy. copy.items ≡ carried.now.items) }
{
    let (first, second) = carried.as_slices();
    let mut copy = Vec::with_capacity(alloc, carried.len())?;
    push_copies(alloc, &mut copy, first)?;
    push_copies(alloc, &mut copy, second)?;
    Ok(VecDeque::from_vec(copy))
}

/// Adds a copy of each of some members at the end; without memory some may have been added.
fn push_copies(alloc: Global, copies: &mut Vec<Kept>, members: &[Kept]) -> Result<(), NoMemory>
    ensures { OnOk result (copies.new.items ≡ copies.old.items ++ members.now) }
{
    for kept in members {
        copies.push(kept.copy(alloc)?)?;
    }
    Ok(())
}
