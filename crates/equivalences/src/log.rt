ghost use Rattle.std.specs.Prelude.{IfOk};
ghost use Rattle.cochain_vec.specs.CochainComplexes.{IsCochainComplex};
ghost use Rattle.block_complexes.specs.BlockComplexes.{BlockComplex, IsBlockComplex};
ghost use Rattle.block_complexes.specs.Cochains.{complex_of};
ghost use Rattle.block_sparse.specs.StoredBlocks.{complex_in};
ghost use Rattle.reduce_step.specs.Logs.{AreStepsFrom, pairs_of};
ghost use Rattle.equivalence_laws.specs.Composites.{IsCompositeOfPairs};
ghost use Rattle.equivalence_laws.specs.Equivalences.{graded_matrix};
ghost use Rattle.equivalences.specs.Between.{IsEquivalenceOf};

use crate::equivalence::Equivalence;
use crate::maps::Maps;
use block_sparse::Blocks;
use dense_blocks::Scalars;
use reduce_step::Step;
use std::alloc::{AllocError as NoMemory, Global};

/// The equivalence of the block complex that the steps of a log began with and of what they left: the composite of their
/// removals.
///
/// Each step is one from what those before it left. Takes, for a step at a pair of cells of size s, a product of s rows
/// for each cell on the left and below, of as many entries as the base has coordinates in the degree, and for each
/// coordinate of the degree of `x` at which iota has an entry; then one step for each entry of the result. Memory: at
/// most twice what is given back, and the rows at the cells that steps have touched. Fails only where memory does.
pub fn of_log<F: Scalars>(
    alloc: Global,
    f: &F,
    base: &Blocks,
    log: &[Step],
) -> Result<Equivalence, NoMemory>
    requires complex { IsBlockComplex (F.ops f.now) (complex_in base.now) }
    requires closed { IsCochainComplex (F.ops f.now) (complex_of (complex_in base.now)) }
    requires steps { (w : BlockComplex) × AreStepsFrom (F.ops f.now) (complex_in base.now) log.now w }
    ensures composite { IfOk result (λ e. IsCompositeOfPairs (F.ops f.now) (complex_in base.now) (pairs_of log.now)
        (graded_matrix e.pi) (graded_matrix e.iota) (graded_matrix e.h)) }
    ensures equivalence { IfOk result (λ e. (w : BlockComplex)
        → AreStepsFrom (F.ops f.now) (complex_in base.now) log.now w
        → IsEquivalenceOf (F.ops f.now) (complex_of (complex_in base.now)) (complex_of w) e) }
{
    // Its clauses say what live cells are.
    let _live = base.live();
    let mut maps = Maps::first(alloc, base)?;
    for step in log {
        maps.add(alloc, f, step)?;
    }
    let equivalence = maps.join(alloc, base)?;
    Ok(equivalence)
}
