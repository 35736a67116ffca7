ghost use Rattle.std.specs.Prelude.{IfOk};
ghost use Rattle.field_table.specs.Table.{ops_of};
ghost use Rattle.cochain_vec.specs.CochainComplexes.{IsCochainComplex};
ghost use Rattle.block_complexes.specs.BlockComplexes.{IsBlockComplex};
ghost use Rattle.block_complexes.specs.Cochains.{complex_of};
ghost use Rattle.block_sparse.specs.StoredBlocks.{complex_in};
ghost use Rattle.block_sparse.specs.Flags.{HasNoFlags};

use crate::report::{Failure, Outcome, Report};
use crate::texts::sheaf_of;
use block_sparse::Blocks;
use coboundary::{full, start_is_block_complex, start_is_cochain_complex};
use field_table::Field;
use first_reduction::reduce;
use io_edge::{StdSource, read_all};
use pair_commit::Slot;
use reduce_step::Step;
use sheaf_data::Sheaf;
use sheaf_text::MOST_BYTES;
use std::alloc::{AllocError as NoMemory, Global};

pub fn reduce_input<R: Input>(rt: &R, alloc: Global) -> Outcome {
    let result = counts(alloc, &input_slot(rt, alloc)?)?;
    Ok(Report { result, time: None })
}

/// The whole reduction of the input's sheaf.
pub fn input_slot<R: Input>(rt: &R, alloc: Global) -> Result<Slot<Field>, Failure>
    ensures closed { IfOk result (λ s. IsCochainComplex (ops_of s.f) (complex_of (complex_in s.base))) }
{
    let sheaf = input_sheaf(rt, alloc)?;
    let slot = reduced(alloc, &sheaf)?;
    Ok(slot)
}

fn input_sheaf<R: Input>(rt: &R, alloc: Global) -> Result<Sheaf<Field>, Failure> {
    let mut source = StdSource::new(rt.reader());
    let text = read_all(alloc, &mut source, MOST_BYTES).map_err(|_| Failure::Input)?;
    sheaf_of(alloc, &text)
}

/// The whole reduction of the block complex of a sheaf.
fn reduced(alloc: Global, sheaf: &Sheaf<Field>) -> Result<Slot<Field>, NoMemory>
    ensures closed { IfOk result (λ s. IsCochainComplex (ops_of s.f) (complex_of (complex_in s.base))) }
{
    let base = start(alloc, sheaf)?;
    let mut slot = Slot::start(alloc, sheaf.draft().field, base, Vec::new(alloc))?;
    reduce(alloc, &mut slot)?;
    Ok(slot)
}

/// The block complex of a sheaf, over its field, without flags; twice its coboundary is zero.
pub fn start(alloc: Global, sheaf: &Sheaf<Field>) -> Result<Blocks, NoMemory>
    ensures over { IfOk result (λ b. IsBlockComplex (ops_of sheaf.now.field) (complex_in b)) }
    ensures closed { IfOk result (λ b. IsCochainComplex (ops_of sheaf.now.field) (complex_of (complex_in b))) }
    ensures unflagged { IfOk result HasNoFlags }
{
    // These three calls are made for their clauses alone.
    start_is_block_complex();
    start_is_cochain_complex();
    let _cells = sheaf.draft().complex.dims();
    let blocks = full(alloc, sheaf)?;
    Ok(blocks)
}

/// How many pairs of cells a reduction removed, how many corners it computed anew, and how many cells are left.
pub fn counts(alloc: Global, slot: &Slot<Field>) -> Result<String, NoMemory> {
    let pairs = slot.log().len();
    let updates = updates_of(slot.log());
    let left = slot.now().live().len();
    format!(in alloc; "{pairs} pairs, {updates} updates, {left} cells left")
}

/// How many corners the steps computed anew: at each the cells on the left times the cells below.
fn updates_of(log: &[Step]) -> u64 {
    let mut updates: u64 = 0;
    for step in log {
        let left = step.left.as_slice().len() as u64;
        let corners = left.saturating_mul(step.below.as_slice().len() as u64);
        updates = updates.saturating_add(corners);
    }
    updates
}
