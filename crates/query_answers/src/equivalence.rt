ghost use Rattle.std.specs.Prelude.{◌≡◌, ◌<◌, ◌≤◌, All, IfOk, length, take};
ghost use Rattle.cochain_vec.specs.CochainComplexes.{IsCochainComplex};
ghost use Rattle.block_complexes.specs.BlockComplexes.{HaveSameMatrices};
ghost use Rattle.block_complexes.specs.Cochains.{complex_of};
ghost use Rattle.block_sparse.specs.StoredBlocks.{complex_in};
ghost use Rattle.equivalence_laws.specs.Composites.{IsCompositeOfPairs};
ghost use Rattle.core_machine.specs.Replies.{Reduction, AreRightMaps};
ghost use Rattle.equivalence_laws.specs.Equivalences.{graded_matrix};
ghost use Rattle.query_answers.specs.Answers.{IsAnswerIn};
ghost use Rattle.query_answers.specs.SlotReductions.{IsReductionIn};

use crate::reduction::{live_cells, reduced};
use dense_blocks::{Block, Listed, Scalars};
use equivalences::of_log;
use pair_commit::Slot;
use sheaf_words::{Maps, Query, Reply};
use std::alloc::{AllocError as NoMemory, Global};

/// The maps between the base of a slot and what its steps leave, in each degree below `degrees`: the composite of the
/// removals.
///
/// Each live cell of the base has a degree below `degrees`, and the coboundary of each coboundary is zero in the base.
/// Takes what [`of_log`] takes, and one step for each entry of the result. Fails only where memory does.
pub(crate) fn maps<F: Scalars>(alloc: Global, slot: &Slot<F>, degrees: u8) -> Result<Maps, NoMemory>
    requires degrees { All (λ l. l.1 < degrees) slot.now.base.live }
    requires few { degrees ≤ 16 }
    requires closed { IsCochainComplex (F.ops slot.now.f) (complex_of (complex_in slot.now.base)) }
    ensures right { IfOk result (λ maps. (r : Reduction) → IsReductionIn degrees slot.now r
        → HaveSameMatrices (complex_in slot.now.base) r.start → AreRightMaps (F.ops slot.now.f) r maps) }
    ensures composite { IfOk result (λ maps. (r : Reduction) → IsReductionIn degrees slot.now r
        → HaveSameMatrices (complex_in slot.now.base) r.start → IsCompositeOfPairs (F.ops slot.now.f) r.start r.pairs
        (graded_matrix maps.pi) (graded_matrix maps.iota) (graded_matrix maps.h)) }
{
    // This call is made for its clauses alone.
    let _present = slot.now();
    let base = live_cells(alloc, slot.base())?;
    let f = slot.field();
    let e = of_log(alloc, &f, slot.base(), slot.log())?;
    let pi = first_blocks(alloc, &e.pi, degrees)?;
    let iota = first_blocks(alloc, &e.iota, degrees)?;
    let h = first_blocks(alloc, &e.h, degrees)?;
    Ok(Maps { base, pi, iota, h })
}

/// The answer to what the steps of a slot leave, and to the maps between the base and that.
pub(crate) fn equivalence_reply<F: Scalars>(
    alloc: Global,
    slot: &Slot<F>,
    degrees: u8,
) -> Result<Reply, NoMemory>
    requires degrees { All (λ l. l.1 < degrees) slot.now.base.live }
    requires few { degrees ≤ 16 }
    requires closed { IsCochainComplex (F.ops slot.now.f) (complex_of (complex_in slot.now.base)) }
    ensures { IfOk result (IsAnswerIn (F.ops slot.now.f) degrees slot.now Query.Equiv) }
{
    let complex = reduced(alloc, slot, degrees)?;
    let maps = maps(alloc, slot, degrees)?;
    Ok(Reply::Equiv(complex, maps))
}

/// The first so many blocks.
fn first_blocks(alloc: Global, blocks: &Listed<Block>, count: u8) -> Result<Listed<Block>, NoMemory>
    requires { count ≤ length blocks.now }
    ensures { IfOk result (λ first. first ≡ take count blocks.now) }
{
    let head = &blocks.as_slice()[..usize::from(count)];
    let mut first = Vec::with_capacity(alloc, head.len())?;
    for block in head {
        first.push(block.copy(alloc)?)?;
    }
    Ok(Listed::of(first))
}
