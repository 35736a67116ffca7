//! Steps of a slot, the first each time.
ghost use Rattle.std.specs.Prelude.{◌≡◌};

use field_table::Field;
use pair_commit::{Slot, Work};
use reduce_step::{Finish, Footprint, Record};
use std::alloc::{AllocError as NoMemory, Global};
use std::process::Abort;

/// The footprint of the first pair that may be removed.
fn next_foot(rt: &impl Abort, slot: &mut Slot<Field>) -> Result<Footprint, NoMemory>
    ensures field { slot.new.f ≡ slot.old.f }
    ensures base { slot.new.base ≡ slot.old.base }
{
    match slot.take((0, 0))? {
        Work::Try(foot) => Ok(foot),
        _ => panic!(rt; "no footprint to be tried"),
    }
}

fn made(rt: &impl Abort, finish: Finish<Field>) -> Record<Field> {
    match finish {
        Finish::Made(record) => record,
        Finish::Singular { .. } => panic!(rt; "no inverse"),
    }
}

/// The record of a footprint of scalars of the field, whose pivot has an inverse.
fn finish(
    rt: &impl Abort,
    alloc: Global,
    f: Field,
    foot: Footprint,
) -> Result<Record<Field>, NoMemory> {
    assert!(rt; foot.is_over(&f));
    match foot.finish(alloc, &f) {
        Ok(finish) => Ok(made(rt, finish)),
        Err((_, fault)) => Err(fault),
    }
}

/// Commits a record over the slot's field.
fn commit(rt: &impl Abort, slot: &mut Slot<Field>, record: Record<Field>)
    ensures field { slot.new.f ≡ slot.old.f }
    ensures base { slot.new.base ≡ slot.old.base }
{
    assert!(rt; record.f == slot.field());
    assert!(rt; slot.commit(record).is_ok());
}

/// Removes the first pair that may be removed.
fn step(rt: &impl Abort, alloc: Global, slot: &mut Slot<Field>) -> Result<(), NoMemory>
    ensures field { slot.new.f ≡ slot.old.f }
    ensures base { slot.new.base ≡ slot.old.base }
{
    let foot = next_foot(rt, slot)?;
    let record = finish(rt, alloc, slot.field(), foot)?;
    commit(rt, slot, record);
    Ok(())
}

/// Removes so many pairs.
pub(crate) fn remove(
    rt: &impl Abort,
    alloc: Global,
    slot: &mut Slot<Field>,
    count: u32,
) -> Result<(), NoMemory>
    ensures field { slot.new.f ≡ slot.old.f }
    ensures base { slot.new.base ≡ slot.old.base }
{
    for _pair in 0..count {
        step(rt, alloc, slot)?;
    }
    Ok(())
}
