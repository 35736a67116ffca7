ghost use Rattle.field_table.specs.Table.{ops_of};
ghost use Rattle.cochain_vec.specs.CochainComplexes.{IsCochainComplex};
ghost use Rattle.block_complexes.specs.Cochains.{complex_of};
ghost use Rattle.block_sparse.specs.StoredBlocks.{complex_in};

use crate::reduction::{counts, input_slot};
use crate::report::{Outcome, Report, Span, checksum_of, timed};
use dense_blocks::Block;
use equivalences::{Equivalence, of_log};
use field_table::Field;
use pair_commit::Slot;
use std::alloc::{AllocError as NoMemory, Global};
use std::rt::Clock;
use std::time::Instant;

pub fn time_equiv<R: Clock + Input>(rt: &R, alloc: Global) -> Outcome {
    let slot = input_slot(rt, alloc)?;
    let start = Instant::now(rt).ok();
    let e = maps_of(alloc, &slot)?;
    let end = Instant::now(rt).ok();
    report(alloc, &slot, (start, end), &e)
}

/// The maps between the base of a slot and what its steps leave.
fn maps_of(alloc: Global, slot: &Slot<Field>) -> Result<Equivalence, NoMemory>
    requires { IsCochainComplex (ops_of slot.now.f) (complex_of (complex_in slot.now.base)) }
{
    // This call is made for its clauses alone.
    let _present = slot.now();
    of_log(alloc, &slot.field(), slot.base(), slot.log())
}

/// The report of these maps of a reduction.
fn report(alloc: Global, slot: &Slot<Field>, span: Span, e: &Equivalence) -> Outcome {
    let (pi, iota, h) = (e.pi.as_slice(), e.iota.as_slice(), e.h.as_slice());
    let sum = checksum_of(checksum_of(checksum_of(0, pi), iota), h);
    let (pi, iota, h) = (size_of(pi), size_of(iota), size_of(h));
    let count = pi.saturating_add(iota).saturating_add(h);
    let Report { result, time } = timed(alloc, span, count, "entries", sum)?;
    let counts = counts(alloc, slot)?;
    let result = format!(in alloc; "{counts}; pi {pi}, iota {iota}, h {h}: {result}")?;
    Ok(Report { result, time })
}

/// How many entries the blocks have.
fn size_of(blocks: &[Block]) -> u32 {
    let mut size: u32 = 0;
    for block in blocks {
        size = size.saturating_add(block.rows.saturating_mul(block.cols));
    }
    size
}
