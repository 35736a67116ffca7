ghost use Rattle.std.specs.Prelude.{IfOk};
ghost use Rattle.cochain_vec.specs.CochainComplexes.{IsCochainComplex};
ghost use Rattle.block_complexes.specs.Cochains.{complex_of};
ghost use Rattle.block_sparse.specs.StoredBlocks.{complex_in};
ghost use Rattle.query_answers.specs.Endings.{AreFinalMaps, IsCohomologyOf, IsEndingOf, IsWholeReduction};

use crate::ending::Ending;
use block_sparse::Blocks;
use cochain_vec::Cochain;
use cocycle_bases::bases;
use dense_blocks::Scalars;
use equivalences::{Equivalence, compose, of_log};
use pair_commit::Slot;
use reduce_step::Step;
use std::alloc::{AllocError as NoMemory, Global};

/// The cohomology of the base of a slot.
#[derive(Debug, Drop)]
pub(crate) struct Cohomology {
    /// The maps between the base and what is left at the end.
    pub(crate) maps: Equivalence,
    /// For each degree from 0 to 15 a basis.
    pub(crate) bases: Vec<Vec<Cochain>>,
}

/// The cohomology of the base of a slot, out of the ending of its reduction. Takes what [`of_log`] takes for both logs,
/// and what [`compose`] and [`bases`] take.
pub(crate) fn cohomology_of<F: Scalars>(
    alloc: Global,
    slot: &Slot<F>,
    ending: &Ending,
) -> Result<Cohomology, NoMemory>
    requires closed { IsCochainComplex (F.ops slot.now.f) (complex_of (complex_in slot.now.base)) }
    requires ending { IsEndingOf (F.ops slot.now.f) slot.now.present ending.now }
    ensures { IfOk result (IsCohomologyOf (F.ops slot.now.f) slot.now) }
{
    // This call is made for its clauses alone.
    let _present = slot.now();
    let f = slot.field();
    let base = slot.base();
    let maps = final_maps(alloc, &f, base, slot.log(), ending)?;
    let bases = bases(alloc, &f, base, &ending.rest, &maps)?;
    Ok(Cohomology { maps, bases })
}

/// The maps of the steps of the log and then of the ending.
fn final_maps<F: Scalars>(
    alloc: Global,
    f: &F,
    base: &Blocks,
    log: &[Step],
    ending: &Ending,
) -> Result<Equivalence, NoMemory>
    requires { IsWholeReduction (F.ops f.now) base.now log.now ending.now }
    ensures { IfOk result (AreFinalMaps (F.ops f.now) base.now log.now ending.now) }
{
    let first = of_log(alloc, f, base, log)?;
    let second = of_log(alloc, f, &ending.split, &ending.log)?;
    let maps = compose(alloc, f, &first, &second)?;
    Ok(maps)
}
