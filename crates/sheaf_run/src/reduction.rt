ghost use Rattle.std.specs.Prelude.{◌≡◌, ◌++◌, IfOk, OnOk};
ghost use Rattle.field_table.specs.Table.{ops_of};
ghost use Rattle.block_complexes.specs.BlockComplexes.{IsBlockComplex};
ghost use Rattle.block_sparse.specs.Flags.{HasNoFlags};
ghost use Rattle.block_sparse.specs.StoredBlocks.{complex_in};
ghost use Rattle.coboundary.specs.Put.{IsStart};
ghost use Rattle.reduce_step.specs.Logs.{pairs_of};
ghost use Rattle.sheaf_run.specs.Sessions.{IsSheafReduction, pair_events};

use block_sparse::Blocks;
use coboundary::{full, start_is_block_complex};
use field_table::Field;
use first_reduction::reduce;
use pair_commit::Slot;
use reduce_step::Step;
use sheaf_data::Sheaf;
use sheaf_words::Event;
use std::alloc::{AllocError as NoMemory, Global};

/// The start complex of a sheaf, reduced by the first pair of cells each time until no pair can be removed.
pub fn reduction(alloc: Global, sheaf: &Sheaf<Field>) -> Result<Slot<Field>, NoMemory>
    ensures { IfOk result (IsSheafReduction sheaf.now) }
{
    let base = start(alloc, sheaf)?;
    let mut slot = Slot::start(alloc, sheaf.draft().field, base, Vec::new(alloc))?;
    reduce(alloc, &mut slot)?;
    Ok(slot)
}

/// The start complex of a sheaf, without flags.
fn start(alloc: Global, sheaf: &Sheaf<Field>) -> Result<Blocks, NoMemory>
    ensures start { IfOk result (IsStart (ops_of sheaf.now.field)
        sheaf.now.complex sheaf.now.stalks sheaf.now.blocks) }
    ensures over { IfOk result (λ b. IsBlockComplex (ops_of sheaf.now.field) (complex_in b)) }
    ensures unflagged { IfOk result HasNoFlags }
{
    // These two calls are made for their clauses alone.
    start_is_block_complex();
    let _cells = sheaf.draft().complex.dims();
    let blocks = full(alloc, sheaf)?;
    Ok(blocks)
}

/// Adds an event for the pair of each step; without memory some may have been added.
pub fn push_pairs(events: &mut Vec<Event>, version: u32, log: &[Step]) -> Result<(), NoMemory>
    ensures { OnOk result (events.new.items ≡ events.old.items ++ pair_events version (pairs_of log.now)) }
{
    for step in log {
        events.push(Event::Pair {
            v: version,
            x: step.x,
            y: step.y,
        })?;
    }
    Ok(())
}
