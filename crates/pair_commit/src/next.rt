ghost use Rattle.std.specs.Prelude.{◌≡◌, All, IfOk, OnErr, true};
ghost use Rattle.dense_blocks.specs.Field.{Ops};
ghost use Rattle.block_complexes.specs.BlockComplexes.{IsBlockComplex};
ghost use Rattle.block_sparse.specs.StoredBlocks.{StandsAt, complex_in};
ghost use Rattle.block_sparse.specs.Candidates.{is_candidate};
ghost use Rattle.pair_find.specs.Pairs.{IsNextFrom};
ghost use Rattle.reduce_step.specs.Footprints.{IsFootprint, IsOverField};
ghost use Rattle.pair_commit.specs.Slots.{KeepsInverse};
ghost use Rattle.pair_commit.specs.Takes.{MayFinish, Takes};

use crate::blocks::stands;
use crate::kept::Kept;
use crate::work::Work;
use block_sparse::Blocks;
use dense_blocks::Block;
use pair_find::next_candidate;
use reduce_step::Footprint;
use std::alloc::{AllocError as NoMemory, Global};
use std::collections::VecDeque;

/// What is to be tried next.
pub(crate) fn next_work(
    b: &Blocks,
    carried: &mut VecDeque<Kept>,
    from: (u32, u32),
) -> Result<Work, NoMemory>
    requires { All (λ k. k.pivot.rows ≡ k.pivot.cols) carried.old.items }
    ensures takes { IfOk result (λ work. Takes b.now carried.old.items from work carried.new.items) }
    ensures may_finish { IfOk result (λ work. (K : Ops) → IsBlockComplex K (complex_in b.now)
        → All (KeepsInverse K) carried.old.items → MayFinish K work) }
    ensures err { OnErr result (carried.new.items ≡ carried.old.items) }
{
    match next_candidate(b, from) {
        Some(pair) => next_try(b, carried, from, pair),
        None => Ok(Work::Finished),
    }
}

/// What is to be tried next, where this is the next candidate.
fn next_try(
    b: &Blocks,
    carried: &mut VecDeque<Kept>,
    from: (u32, u32),
    pair: (u32, u32),
) -> Result<Work, NoMemory>
    requires square { All (λ k. k.pivot.rows ≡ k.pivot.cols) carried.old.items }
    requires next { IsNextFrom b.now from pair }
    ensures takes { IfOk result (λ work. Takes b.now carried.old.items from work carried.new.items) }
    ensures may_finish { IfOk result (λ work. (K : Ops) → IsBlockComplex K (complex_in b.now)
        → All (KeepsInverse K) carried.old.items → MayFinish K work) }
    ensures err { OnErr result (carried.new.items ≡ carried.old.items) }
{
    let alloc = *carried.allocator();
    let Some(first) = carried.front() else {
        let foot = copy_candidate(alloc, b, pair)?;
        return Ok(Work::Try(foot));
    };
    if stands(b, first.x, first.y, &first.pivot) {
        let (foot, inverse) = copy_kept(alloc, b, first)?;
        return Ok(Work::Carried(foot, inverse));
    }
    let x = first.x;
    let y = first.y;
    let _first = carried.pop_front();
    Ok(Work::Dropped { x, y })
}

/// The footprint of a candidate.
fn copy_candidate(alloc: Global, b: &Blocks, pair: (u32, u32)) -> Result<Footprint, NoMemory>
    requires { is_candidate b.now pair.0 pair.1 ≡ true }
    ensures footprint { IfOk result (IsFootprint b.now pair.0 pair.1) }
    ensures over { IfOk result (λ foot. (K : Ops) → IsBlockComplex K (complex_in b.now) → IsOverField K foot) }
{
    let foot = Footprint::copy(alloc, b, pair.0, pair.1)?;
    Ok(foot)
}

/// The footprint of a pair at which the kept pivot stands, with the kept inverse.
fn copy_kept(alloc: Global, b: &Blocks, kept: &Kept) -> Result<(Footprint, Block), NoMemory>
    requires stands { StandsAt b.now kept.now.x kept.now.y kept.now.pivot }
    requires square { kept.now.pivot.rows ≡ kept.now.pivot.cols }
    ensures footprint { IfOk result (λ w. IsFootprint b.now kept.now.x kept.now.y w.0) }
    ensures pivot { IfOk result (λ w. w.0.pivot ≡ kept.now.pivot) }
    ensures inverse { IfOk result (λ w. w.1 ≡ kept.now.inverse) }
    ensures over { IfOk result (λ w. (K : Ops) → IsBlockComplex K (complex_in b.now) → IsOverField K w.0) }
{
    let foot = Footprint::copy(alloc, b, kept.x, kept.y)?;
    let inverse = kept.inverse.copy(alloc)?;
    Ok((foot, inverse))
}
