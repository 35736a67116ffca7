ghost use Rattle.std.specs.Prelude.{◌≡◌, ◌<◌, All, IfOk};
ghost use Rattle.reduce_step.specs.Logs.{pairs_of};
ghost use Rattle.core_machine.specs.Replies.{Reduction, IsRightReduced};
ghost use Rattle.query_answers.specs.Answers.{IsAnswerIn};
ghost use Rattle.query_answers.specs.SlotReductions.{IsReductionIn};

use crate::degrees::coboundary_matrices;
use block_sparse::Blocks;
use dense_blocks::{Listed, Scalars};
use pair_commit::Slot;
use reduce_step::Step;
use sheaf_words::{Query, Reduced, Reply};
use std::alloc::{AllocError as NoMemory, Global};

/// What the steps of a slot leave of its block complex: the pairs that they removed, the cells that are left, and the
/// matrix of the coboundary in each degree below `degrees`.
///
/// Each live cell of the base has a degree below `degrees`. Takes one step for each step of the log, and what
/// [`coboundary_matrices`] takes. Fails only where memory does.
pub(crate) fn reduced<F: Scalars>(
    alloc: Global,
    slot: &Slot<F>,
    degrees: u8,
) -> Result<Reduced, NoMemory>
    requires { All (λ l. l.1 < degrees) slot.now.base.live }
    ensures { IfOk result (λ reply. (r : Reduction) → IsReductionIn degrees slot.now r
        → IsRightReduced (F.ops slot.now.f) r reply) }
{
    let present = slot.now();
    let pairs = removed_pairs(alloc, slot.log())?;
    let live = live_cells(alloc, present)?;
    let d = coboundary_matrices(alloc, present, degrees)?;
    Ok(Reduced { pairs, live, d })
}

/// The answer to what the steps of a slot leave.
pub(crate) fn reduced_reply<F: Scalars>(
    alloc: Global,
    slot: &Slot<F>,
    degrees: u8,
) -> Result<Reply, NoMemory>
    requires { All (λ l. l.1 < degrees) slot.now.base.live }
    ensures { IfOk result (IsAnswerIn (F.ops slot.now.f) degrees slot.now Query.Reduce) }
{
    let reply = reduced(alloc, slot, degrees)?;
    Ok(Reply::Reduce(reply))
}

/// The pairs that steps remove, in order.
fn removed_pairs(alloc: Global, log: &[Step]) -> Result<Listed<(u32, u32)>, NoMemory>
    ensures { IfOk result (λ pairs. pairs ≡ pairs_of log.now) }
{
    let mut pairs = Vec::with_capacity(alloc, log.len())?;
    for step in log {
        pairs.push((step.x, step.y))?;
    }
    Ok(Listed::of(pairs))
}

/// The live cells, each with its degree and its size.
pub(crate) fn live_cells(alloc: Global, b: &Blocks) -> Result<Listed<(u32, u8, u8)>, NoMemory>
    ensures { IfOk result (λ live. live ≡ b.now.live) }
{
    Ok(Listed::of(Vec::from_slice(alloc, b.live())?))
}
