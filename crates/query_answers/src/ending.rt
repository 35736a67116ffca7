ghost use Rattle.std.specs.Prelude.{IfOk};
ghost use Rattle.block_complexes.specs.BlockComplexes.{IsBlockComplex};
ghost use Rattle.block_sparse.specs.StoredBlocks.{complex_in};
ghost use Rattle.query_answers.specs.Endings.{IsEndingOf};

use block_sparse::Blocks;
use dense_blocks::Scalars;
use pair_commit::Slot;
use reduce_step::Step;
use scalar_finish::{finish, split};
use std::alloc::{AllocError as NoMemory, Global};

/// How a reduction ends, once no pair of its cells can be removed.
#[derive(Debug, Drop)]
pub(crate) struct Ending {
    /// What was left before, split into its coordinates.
    pub(crate) split: Blocks,
    /// What is left at the end, without a block.
    pub(crate) rest: Blocks,
    /// The steps from the one to the other.
    pub(crate) log: Vec<Step>,
}

/// The ending of the reduction that a slot holds. Takes what [`split`] and [`finish`] take.
pub(crate) fn ending_of<F: Scalars>(alloc: Global, slot: &Slot<F>) -> Result<Ending, NoMemory>
    ensures { IfOk result (IsEndingOf (F.ops slot.now.f) slot.now.present) }
{
    let present = slot.now();
    let f = slot.field();
    let ending = end(alloc, &f, present)?;
    Ok(ending)
}

/// What is present, split and reduced to the end.
fn end<F: Scalars>(alloc: Global, f: &F, present: &Blocks) -> Result<Ending, NoMemory>
    requires { IsBlockComplex (F.ops f.now) (complex_in present.now) }
    ensures { IfOk result (IsEndingOf (F.ops f.now) present.now) }
{
    let coordinates = split(alloc, present)?;
    let start = coordinates.copy(alloc)?;
    let finished = finish(alloc, f, start)?;
    Ok(Ending {
        split: coordinates,
        rest: finished.rest,
        log: finished.log,
    })
}
