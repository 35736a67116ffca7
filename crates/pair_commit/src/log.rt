ghost use Rattle.std.specs.Prelude.{◌≡◌, IfOk, OnOk, OnErr};
ghost use Rattle.block_complexes.specs.BlockComplexes.{IsBlockComplex};
ghost use Rattle.block_sparse.specs.StoredBlocks.{complex_in};
ghost use Rattle.reduce_step.specs.Differences.{Fits};
ghost use Rattle.pair_commit.specs.Commits.{IsAppended};

use block_sparse::Blocks;
use dense_blocks::Scalars;
use reduce_step::{Record, Step};
use std::alloc::{AllocError as NoMemory, Global};

/// Makes the record's removal, and puts its step last in the log; without memory nothing has changed.
pub(crate) fn append<F: Scalars>(
    b: &mut Blocks,
    log: &mut Vec<Step>,
    r: Record<F>,
) -> Result<(), NoMemory>
    requires fits { Fits b.old r.foot }
    requires over { IsBlockComplex (F.ops r.f) (complex_in b.old) }
    ensures ok { OnOk result (IsAppended (F.ops r.f) r b.old b.new log.old.items log.new.items) }
    ensures err { OnErr result ((b.new ≡ b.old) × (log.new.items ≡ log.old.items)) }
{
    log.reserve(1)?;
    // This call is made for its clauses alone.
    let _stands = b.live();
    match r.apply(b) {
        Ok(step) => {
            log.push_reserved(step);
            Ok(())
        }
        Err((_, fault)) => Err(fault),
    }
}

/// The same steps.
pub(crate) fn copy_log(alloc: Global, log: &[Step]) -> Result<Vec<Step>, NoMemory>
    ensures { IfOk result (λ copy. copy.items ≡ log.now) }
{
    let mut copy = Vec::with_capacity(alloc, log.len())?;
    for step in log {
        copy.push(step.copy(alloc)?)?;
    }
    Ok(copy)
}
