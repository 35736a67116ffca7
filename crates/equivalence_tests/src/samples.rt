//! Reductions of sheaves, by the texts of these.
ghost use Rattle.std.specs.Prelude.{IfOk};
ghost use Rattle.field_table.specs.Table.{ops_of};
ghost use Rattle.cochain_vec.specs.CochainComplexes.{IsCochainComplex};
ghost use Rattle.block_complexes.specs.Cochains.{complex_of};
ghost use Rattle.block_sparse.specs.StoredBlocks.{complex_in};
ghost use Rattle.equivalences.specs.Between.{IsEquivalenceOf};

use crate::steps::remove;
use block_sparse::Blocks;
use coboundary::{full, start_is_cochain_complex};
use equivalences::{Equivalence, of_log};
use field_table::Field;
use pair_commit::Slot;
use sheaf_data::Sheaf;
use sheaf_text::read;
use std::alloc::{AllocError as NoMemory, Global};
use std::process::Abort;

/// The circle: the vertices 0, 1 and 2; the edge 3 from 0 to 1, 4 from 1 to 2 and 5 from 0 to 2.
pub(crate) const CIRCLE: &str = "field 3\n\
cell 0 1\ncell 0 1\ncell 0 1\ncell 1 1\ncell 1 1\ncell 1 1\n\
face 0 3 - 1\nface 1 3 + 1\nface 1 4 - 1\nface 2 4 + 1\nface 0 5 - 1\nface 2 5 + 1\ndone\n";

/// The boundary of a tetrahedron: the vertices 0 to 3; the edges 4 to 9, those of 01, 02, 03, 12, 13 and 23; the
/// triangles 10 to 13, those of 012, 013, 023 and 123.
pub(crate) const TETRAHEDRON: &str = "field 5\n\
cell 0 1\ncell 0 1\ncell 0 1\ncell 0 1\n\
cell 1 1\ncell 1 1\ncell 1 1\ncell 1 1\ncell 1 1\ncell 1 1\n\
cell 2 1\ncell 2 1\ncell 2 1\ncell 2 1\n\
face 0 4 - 1\nface 1 4 + 1\nface 0 5 - 1\nface 2 5 + 1\nface 0 6 - 1\nface 3 6 + 1\n\
face 1 7 - 1\nface 2 7 + 1\nface 1 8 - 1\nface 3 8 + 1\nface 2 9 - 1\nface 3 9 + 1\n\
face 4 10 + 1\nface 5 10 - 1\nface 7 10 + 1\nface 4 11 + 1\nface 6 11 - 1\nface 8 11 + 1\n\
face 5 12 + 1\nface 6 12 - 1\nface 9 12 + 1\nface 7 13 + 1\nface 8 13 - 1\nface 9 13 + 1\ndone\n";

/// A complex without cells.
pub(crate) const EMPTY: &str = "field 3\ndone\n";

/// The sheaf of a text.
fn sheaf(rt: &impl Abort, alloc: Global, text: &str) -> Sheaf<Field> {
    let input = read(alloc, text.as_bytes()).ok().expect(rt, "an input");
    input.draft.seal().ok().expect(rt, "a sheaf")
}

/// The start complex of a sheaf, where twice the coboundary is zero.
fn start_complex(alloc: Global, sheaf: &Sheaf<Field>) -> Result<Blocks, NoMemory>
    ensures { IfOk result (λ b. IsCochainComplex (ops_of sheaf.now.field) (complex_of (complex_in b))) }
{
    // These two calls are made for their clauses alone.
    start_is_cochain_complex();
    let _cells = sheaf.draft().complex.dims();
    let blocks = full(alloc, sheaf)?;
    Ok(blocks)
}

/// The slot of the start complex of a sheaf.
fn start(rt: &impl Abort, alloc: Global, sheaf: &Sheaf<Field>) -> Result<Slot<Field>, NoMemory>
    ensures { IfOk result (λ s. IsCochainComplex (ops_of s.f) (complex_of (complex_in s.base))) }
{
    let base = start_complex(alloc, sheaf)?;
    let f = sheaf.draft().field;
    assert!(rt; base.is_over(&f) && base.has_no_flags());
    let slot = Slot::start(alloc, f, base, Vec::new(alloc))?;
    Ok(slot)
}

/// The slot of the start complex of the sheaf of a text, of which so many pairs are removed.
pub(crate) fn reduced(
    rt: &impl Abort,
    alloc: Global,
    text: &str,
    count: u32,
) -> Result<Slot<Field>, NoMemory>
    ensures { IfOk result (λ s. IsCochainComplex (ops_of s.f) (complex_of (complex_in s.base))) }
{
    let mut slot = start(rt, alloc, &sheaf(rt, alloc, text))?;
    remove(rt, alloc, &mut slot, count)?;
    Ok(slot)
}

/// The maps of all steps of a slot.
pub(crate) fn maps(alloc: Global, slot: &Slot<Field>) -> Result<Equivalence, NoMemory>
    requires { IsCochainComplex (ops_of slot.now.f) (complex_of (complex_in slot.now.base)) }
    ensures { IfOk result (IsEquivalenceOf (ops_of slot.now.f) (complex_of (complex_in slot.now.base))
        (complex_of (complex_in slot.now.present))) }
{
    // This call is made for its clauses alone.
    let _present = slot.now();
    let equivalence = of_log(alloc, &slot.field(), slot.base(), slot.log())?;
    Ok(equivalence)
}

/// The maps of so many removals from the start complex of the sheaf of a text.
pub(crate) fn maps_of(
    rt: &impl Abort,
    alloc: Global,
    text: &str,
    count: u32,
) -> Result<Equivalence, NoMemory> {
    let slot = reduced(rt, alloc, text, count)?;
    maps(alloc, &slot)
}
