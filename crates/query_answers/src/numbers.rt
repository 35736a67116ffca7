ghost use Rattle.std.specs.Prelude.{◌≡◌, ◌≤◌, IfOk, IfSome, None};
ghost use Rattle.cochain_vec.specs.CochainComplexes.{IsCochainComplex};
ghost use Rattle.cochain_vec.specs.Complexes.{coordinates};
ghost use Rattle.block_complexes.specs.Cochains.{complex_of};
ghost use Rattle.block_sparse.specs.StoredBlocks.{complex_in};
ghost use Rattle.query_answers.specs.Answers.{IsAnswerIn, AreSizes};
ghost use Rattle.query_answers.specs.Endings.{IsEndingOf};

use crate::ending::{Ending, ending_of};
use block_sparse::Blocks;
use dense_blocks::{Listed, Scalars};
use pair_commit::Slot;
use sheaf_words::{Numbers, Query, Reply};
use std::alloc::{AllocError as NoMemory, Global};

/// The numbers of coordinates that the ending of the reduction leaves, which is made unless it was kept.
pub(crate) fn betti<F: Scalars>(
    alloc: Global,
    slot: &Slot<F>,
    kept: &mut Option<Ending>,
    degrees: u8,
) -> Result<Reply, NoMemory>
    requires degrees { degrees ≤ 16 }
    requires closed { IsCochainComplex (F.ops slot.now.f) (complex_of (complex_in slot.now.base)) }
    requires kept { IfSome kept.old (IsEndingOf (F.ops slot.now.f) slot.now.present) }
    ensures keeps { IfSome kept.new (IsEndingOf (F.ops slot.now.f) slot.now.present) }
    ensures right { IfOk result (IsAnswerIn (F.ops slot.now.f) degrees slot.now Query.Betti) }
{
    let ending = kept_ending(alloc, slot, kept)?;
    let reply = betti_of(alloc, slot, &ending, degrees);
    *kept = Some(ending);
    reply
}

/// The numbers of coordinates that the ending leaves.
fn betti_of<F: Scalars>(
    alloc: Global,
    slot: &Slot<F>,
    ending: &Ending,
    degrees: u8,
) -> Result<Reply, NoMemory>
    requires degrees { degrees ≤ 16 }
    requires closed { IsCochainComplex (F.ops slot.now.f) (complex_of (complex_in slot.now.base)) }
    requires ending { IsEndingOf (F.ops slot.now.f) slot.now.present ending.now }
    ensures { IfOk result (IsAnswerIn (F.ops slot.now.f) degrees slot.now Query.Betti) }
{
    // This call is made for its clauses alone.
    let _present = slot.now();
    let numbers = sizes(alloc, &ending.rest, degrees)?;
    Ok(Reply::Betti(numbers))
}

/// The ending, taken from where it is kept, or made.
pub(crate) fn kept_ending<F: Scalars>(
    alloc: Global,
    slot: &Slot<F>,
    kept: &mut Option<Ending>,
) -> Result<Ending, NoMemory>
    requires { IfSome kept.old (IsEndingOf (F.ops slot.now.f) slot.now.present) }
    ensures none { kept.new ≡ None }
    ensures ending { IfOk result (IsEndingOf (F.ops slot.now.f) slot.now.present) }
{
    match kept.take() {
        Some(ending) => Ok(ending),
        None => ending_of(alloc, slot),
    }
}

/// How many coordinates there are in each of so many degrees.
fn sizes(alloc: Global, b: &Blocks, degrees: u8) -> Result<Numbers, NoMemory>
    requires { degrees ≤ 16 }
    ensures { IfOk result (AreSizes (complex_of (complex_in b.now)) degrees) }
{
    let mut numbers = Vec::with_capacity(alloc, usize::from(degrees))?;
    for k in 0..degrees {
        numbers.push(size(b, k))?;
    }
    Ok(Listed::of(numbers))
}

/// How many coordinates there are in degree `k`.
fn size(b: &Blocks, k: u8) -> u32
    ensures { result ≡ coordinates (complex_of (complex_in b.now)) k }
{
    // Its clauses bound the sum.
    let _live = b.live();
    let count = b.coordinates(k);
    count as u32
}
