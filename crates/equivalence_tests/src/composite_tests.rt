//! The composite of the maps of the first two removals and of the rest, which are those of all.
ghost use Rattle.std.specs.Prelude.{◌≡◌, IfOk};
ghost use Rattle.field_table.specs.Table.{ops_of};
ghost use Rattle.cochain_vec.specs.Complexes.{CellularComplex};
ghost use Rattle.cochain_vec.specs.CochainComplexes.{IsCochainComplex};
ghost use Rattle.block_complexes.specs.Cochains.{complex_of};
ghost use Rattle.block_sparse.specs.StoredBlocks.{complex_in};
ghost use Rattle.equivalences.specs.Between.{AreMapsBetween};

use crate::map_tests::has;
use crate::samples::{TETRAHEDRON, maps, maps_of, reduced};
use crate::steps::remove;
use dense_blocks::{Block, Listed};
use equivalences::{Equivalence, compose};
use field_table::Field;
use pair_commit::Slot;
use std::alloc::{AllocError as NoMemory, Global};
use std::process::Abort;

/// The slot of what the steps of another have left.
fn rest(rt: &impl Abort, alloc: Global, slot: &Slot<Field>) -> Result<Slot<Field>, NoMemory>
    requires { IsCochainComplex (ops_of slot.now.f) (complex_of (complex_in slot.now.base)) }
    ensures field { IfOk result (λ s. s.f ≡ slot.now.f) }
    ensures base { IfOk result (λ s. s.base ≡ slot.now.present) }
    ensures closed { IfOk result (λ s. IsCochainComplex (ops_of s.f) (complex_of (complex_in s.base))) }
{
    let base = slot.now().copy(alloc)?;
    let f = slot.field();
    assert!(rt; base.is_over(&f) && base.has_no_flags());
    let rest = Slot::start(alloc, f, base, Vec::new(alloc))?;
    Ok(rest)
}

/// The maps of so many removals from what the steps of a slot have left.
fn maps_of_rest(
    rt: &impl Abort,
    alloc: Global,
    slot: &Slot<Field>,
    count: u32,
) -> Result<Equivalence, NoMemory>
    requires { IsCochainComplex (ops_of slot.now.f) (complex_of (complex_in slot.now.base)) }
    ensures { IfOk result (λ e. (D : CellularComplex)
        × AreMapsBetween (ops_of slot.now.f) (complex_of (complex_in slot.now.present)) D e) }
{
    let mut rest = rest(rt, alloc, slot)?;
    remove(rt, alloc, &mut rest, count)?;
    let e = maps(alloc, &rest)?;
    Ok(e)
}

/// The composite of the maps of a slot's steps and of those of so many removals from what they have left.
fn composite(
    rt: &impl Abort,
    alloc: Global,
    slot: &Slot<Field>,
    count: u32,
) -> Result<Equivalence, NoMemory>
    requires { IsCochainComplex (ops_of slot.now.f) (complex_of (complex_in slot.now.base)) }
{
    let first = maps(alloc, slot)?;
    let second = maps_of_rest(rt, alloc, slot, count)?;
    compose(alloc, &slot.field(), &first, &second)
}

/// The composite of the maps of the first two removals and of the four others.
fn two_and_four(rt: &impl Abort, alloc: Global) -> Result<Equivalence, NoMemory> {
    let slot = reduced(rt, alloc, TETRAHEDRON, 2)?;
    composite(rt, alloc, &slot, 4)
}

/// Whether the lists have the same blocks.
fn are_same(a: &Listed<Block>, b: &Listed<Block>) -> bool {
    for (k, block) in b.as_slice().iter().enumerate() {
        if !has(a, k, block.rows, block.cols, block.entries.as_slice()) {
            return false;
        }
    }
    a.as_slice().len() == b.as_slice().len()
}

#[test]
fn composes_two_removals_and_the_rest(rt: HostRuntime) -> Result<(), NoMemory> {
    let e = two_and_four(&rt, rt.alloc())?;
    let whole = maps_of(&rt, rt.alloc(), TETRAHEDRON, 6)?;
    assert!(rt; are_same(&e.pi, &whole.pi) && are_same(&e.iota, &whole.iota));
    assert!(rt; are_same(&e.h, &whole.h));
    assert!(rt; has(&e.iota, 0, 4, 1, &[1, 1, 1, 1]));
    Ok(())
}
