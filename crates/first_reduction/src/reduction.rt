ghost use Rattle.std.specs.Prelude.{◌≡◌, [], MatchOption, IfOk, IfSome, OnOk, OnErr};
ghost use Rattle.reduce_step.specs.Differences.{Fits};
ghost use Rattle.reduce_step.specs.Footprints.{IsOverField};
ghost use Rattle.pair_commit.specs.Commits.{IsCommitted, IsMarked};
ghost use Rattle.pair_commit.specs.Slots.{IsTried};
ghost use Rattle.dense_blocks.specs.Blocks.{matrix_of};
ghost use Rattle.dense_blocks.specs.Inverses.{InKernel};
ghost use Rattle.block_sparse.specs.StoredBlocks.{StandsAt};
ghost use Rattle.first_reduction.specs.Advances.{IsFirstFootprint, IsAdvance, IsReduced};

use dense_blocks::{Block, Scalars};
use pair_commit::{CommitFault, Slot, Work};
use reduce_step::{Finish, Footprint, Record};
use std::alloc::{AllocError as NoMemory, Global};

/// Removes the first pair of cells that may be removed, by its first cell and then by its second, again and again,
/// until no pair may be removed. Each square block without an inverse gets its flag set on the way.
///
/// Nothing is carried. Takes what [`Slot::take`], [`Footprint::finish`] and [`Slot::commit`] take, once for each square
/// block that is tried. Fails only where memory does; the slot is then one on the way.
pub fn reduce<F: Scalars>(alloc: Global, slot: &mut Slot<F>) -> Result<(), NoMemory>
    requires { slot.old.carried ≡ [] }
    ensures field { slot.new.f ≡ slot.old.f }
    ensures base { slot.new.base ≡ slot.old.base }
    ensures carried { slot.new.carried ≡ [] }
    ensures reduced { OnOk result (IsReduced (F.ops slot.old.f) slot.old slot.new) }
{
    'pairs: loop {
        match first_footprint(slot)? {
            Some(foot) => try_pair(alloc, slot, foot)?,
            None => {
                // This call is made for its clauses alone.
                let _cells = slot.now().live();
                return Ok(());
            }
        }
    }
}

/// The footprint of the first pair to be tried; none where each square block was tried.
fn first_footprint<F: Scalars>(slot: &mut Slot<F>) -> Result<Option<Footprint>, NoMemory>
    requires { slot.old.carried ≡ [] }
    ensures same { slot.new ≡ slot.old }
    ensures first { IfOk result
        (λ o. MatchOption o (IsTried slot.old.present) (IsFirstFootprint slot.old.present)) }
    ensures over { IfOk result (λ o. IfSome o (IsOverField (F.ops slot.old.f))) }
{
    match slot.take((0, 0))? {
        Work::Try(foot) => Ok(Some(foot)),
        _ => Ok(None),
    }
}

/// Removes the pair of the footprint, where its pivot has an inverse; else sets the pivot's flag.
fn try_pair<F: Scalars>(alloc: Global, slot: &mut Slot<F>, foot: Footprint) -> Result<(), NoMemory>
    requires none { slot.old.carried ≡ [] }
    requires first { IsFirstFootprint slot.old.present foot }
    requires over { IsOverField (F.ops slot.old.f) foot }
    ensures field { slot.new.f ≡ slot.old.f }
    ensures base { slot.new.base ≡ slot.old.base }
    ensures carried { slot.new.carried ≡ [] }
    ensures advance { OnOk result (IsAdvance (F.ops slot.old.f) slot.old slot.new) }
{
    // This call is made for its clauses alone.
    let _cells = slot.now().live();
    let f = slot.field();
    match foot.finish(alloc, &f) {
        Ok(Finish::Made(record)) => remove(slot, record),
        Ok(
            Finish::Singular {
                x,
                y,
                pivot,
                kernel,
            },
        ) => {
            set_flag(slot, x, y, &pivot, &kernel);
            Ok(())
        }
        Err((_, fault)) => Err(fault),
    }
}

/// Removes the pair of a record that fits.
fn remove<F: Scalars>(slot: &mut Slot<F>, r: Record<F>) -> Result<(), NoMemory>
    requires fits { Fits slot.old.present r.foot }
    requires field { r.f ≡ slot.old.f }
    ensures committed { OnOk result (IsCommitted (F.ops slot.old.f) slot.old r slot.new) }
    ensures err { OnErr result (slot.new ≡ slot.old) }
{
    match slot.commit(r) {
        Ok(()) => Ok(()),
        Err(CommitFault::NoMemory) => Err(NoMemory),
        Err(CommitFault::Stale { .. }) => unreachable!(),
    }
}

/// Sets the flag of a square block without an inverse that stands.
fn set_flag<F: Scalars>(slot: &mut Slot<F>, x: u32, y: u32, pivot: &Block, kernel: &[u8])
    requires square { pivot.now.rows ≡ pivot.now.cols }
    requires kernel { InKernel (F.ops slot.old.f) pivot.now.rows (matrix_of pivot.now) kernel.now }
    requires stands { StandsAt slot.old.present x y pivot.now }
    ensures { IsMarked slot.old x y pivot.now slot.new }
{
    match slot.mark(x, y, pivot, kernel) {
        Ok(()) => (),
        Err(_) => unreachable!(),
    }
}
