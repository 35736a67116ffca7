ghost use Rattle.std.specs.Prelude.{◌≡◌, false, All, MatchOption, IfOk, OnOk};
ghost use Rattle.dense_blocks.specs.Blocks.{matrix_of};
ghost use Rattle.block_complexes.specs.BlockComplexes.{IsBlockComplex};
ghost use Rattle.block_sparse.specs.StoredBlocks.{complex_in, is_zero};
ghost use Rattle.reduce_step.specs.Differences.{Fits};
ghost use Rattle.reduce_step.specs.Finishes.{IsRecordOf};
ghost use Rattle.reduce_step.specs.Footprints.{IsOverField};
ghost use Rattle.reduce_step.specs.Logs.{AreStepsFrom, pairs_of};
ghost use Rattle.scalar_finish.specs.Finishes.{IsFinish};
ghost use Rattle.scalar_finish.specs.Beginnings.{HasNoneFrom, IsFirstFrom, IsStepAt, IsVisit};

use crate::coordinates::cells_of;
use block_sparse::Blocks;
use dense_blocks::Scalars;
use reduce_step::{Finish, Footprint, Record, Step};
use std::alloc::{AllocError as NoMemory, Global};

/// What a reduction to the end leaves, and its steps.
#[derive(Debug, Drop)]
pub struct Finished {
    /// The block complex that is left, without a block.
    pub rest: Blocks,
    /// The steps, in order.
    pub log: Vec<Step>,
}

/// Removes the first pair of cells with a nonzero block, by its first cell and then by its second, again and again,
/// until no block is left. All cells have size 1. Flags do not count.
///
/// Looks at each cell once, and for each pair takes what [`Footprint::copy`], [`Footprint::finish`] and
/// [`Record::apply`] take. Fails only where memory does.
pub fn finish<F: Scalars>(alloc: Global, f: &F, b: Blocks) -> Result<Finished, NoMemory>
    requires units { All (λ l. l.2 ≡ 1) b.live }
    requires over { IsBlockComplex (F.ops f.now) (complex_in b) }
    ensures steps { IfOk result
        (λ r. AreStepsFrom (F.ops f.now) (complex_in b) r.log.items (complex_in r.rest)) }
    ensures finish { IfOk result
        (λ r. IsFinish (F.ops f.now) (complex_in b) (pairs_of r.log.items) (complex_in r.rest)) }
{
    // From a cell that was looked at no block goes later: one round is enough.
    let cells = cells_of(alloc, b.live())?;
    let mut rest = b;
    let mut log = Vec::new(alloc);
    let listed = cells.as_slice();
    for x in listed {
        visit(alloc, f, &mut rest, &mut log, *x)?;
    }
    Ok(Finished { rest, log })
}

/// Removes a cell with the first to which a block goes from it, if there is one, and adds the step.
fn visit<F: Scalars>(
    alloc: Global,
    f: &F,
    b: &mut Blocks,
    log: &mut Vec<Step>,
    x: u32,
) -> Result<(), NoMemory>
    requires units { All (λ l. l.2 ≡ 1) b.old.live }
    requires over { IsBlockComplex (F.ops f.now) (complex_in b.old) }
    ensures { OnOk result
        (IsVisit (F.ops f.now) (complex_in b.old) log.old.items x (complex_in b.new) log.new.items) }
{
    match first_below(b, x) {
        Some(y) => {
            let step = remove(alloc, f, b, x, y)?;
            log.push(step)?;
            Ok(())
        }
        None => Ok(()),
    }
}

/// The first cell to which a block goes from `x`.
fn first_below(b: &Blocks, x: u32) -> Option<u32>
    ensures { MatchOption result (HasNoneFrom (complex_in b.now) x) (IsFirstFrom (complex_in b.now) x) }
{
    let column = b.column(x);
    if column.is_empty() {
        None
    } else {
        Some(column[0])
    }
}

/// Removes a pair of cells.
fn remove<F: Scalars>(
    alloc: Global,
    f: &F,
    b: &mut Blocks,
    x: u32,
    y: u32,
) -> Result<Step, NoMemory>
    requires units { All (λ l. l.2 ≡ 1) b.old.live }
    requires over { IsBlockComplex (F.ops f.now) (complex_in b.old) }
    requires first { IsFirstFrom (complex_in b.old) x y }
    ensures { IfOk result (λ step. IsStepAt (F.ops f.now) (complex_in b.old) x y step (complex_in b.new)) }
{
    let record = record_at(alloc, f, b, x, y)?;
    match record.apply(b) {
        Ok(step) => Ok(step),
        Err((_, fault)) => Err(fault),
    }
}

/// The record of the removal of a pair of cells.
fn record_at<F: Scalars>(
    alloc: Global,
    f: &F,
    b: &Blocks,
    x: u32,
    y: u32,
) -> Result<Record<F>, NoMemory>
    requires units { All (λ l. l.2 ≡ 1) b.now.live }
    requires over { IsBlockComplex (F.ops f.now) (complex_in b.now) }
    requires first { IsFirstFrom (complex_in b.now) x y }
    ensures field { IfOk result (λ r. r.f ≡ f.now) }
    ensures fits { IfOk result (λ r. Fits b.now r.foot) }
    ensures from { IfOk result (λ r. r.foot.x ≡ x) }
    ensures to { IfOk result (λ r. r.foot.y ≡ y) }
{
    // This call is made for its clauses alone.
    let _live = b.live();
    let foot = Footprint::copy(alloc, b, x, y)?;
    let record = record_of(alloc, f, foot)?;
    Ok(record)
}

/// The record of a footprint whose pivot is one entry that is not 0.
fn record_of<F: Scalars>(alloc: Global, f: &F, foot: Footprint) -> Result<Record<F>, NoMemory>
    requires over { IsOverField (F.ops f.now) foot }
    requires one { foot.pivot.rows ≡ 1 }
    requires nonzero { is_zero (matrix_of foot.pivot) ≡ false }
    ensures { IfOk result (IsRecordOf (F.ops f.now) f.now foot) }
{
    match foot.finish(alloc, f) {
        Ok(Finish::Made(record)) => Ok(record),
        Ok(
            Finish::Singular {
                x: _x,
                y: _y,
                pivot: _pivot,
                kernel: _kernel,
            },
        ) => unreachable!(),
        Err((_, fault)) => Err(fault),
    }
}
