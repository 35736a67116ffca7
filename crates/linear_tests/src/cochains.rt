//! Cochains over the field of two elements.
use cochain_vec::{Cochain, add, scale};
use dense_blocks::{Two, all_scalars};
use std::alloc::{AllocError as NoMemory, Global};
use std::process::Abort;

fn cochain(alloc: Global, values: &[u8]) -> Result<Cochain, NoMemory> {
    let values = Vec::from_slice(alloc, values)?;
    Ok(Cochain { degree: 2, values })
}

// The sum of two cochains.
fn added(rt: &impl Abort, alloc: Global, a: &Cochain, b: &Cochain) -> Result<Cochain, NoMemory> {
    assert!(rt; a.degree == b.degree && a.values.len() == b.values.len());
    assert!(rt; all_scalars(&Two, &a.values) && all_scalars(&Two, &b.values));
    add(alloc, &Two, a, b)
}

// Zero times the cochain.
fn zero(rt: &impl Abort, alloc: Global, a: &Cochain) -> Result<Cochain, NoMemory> {
    assert!(rt; all_scalars(&Two, &a.values));
    scale(alloc, &Two, 0, a)
}

#[test]
fn combines(rt: HostRuntime) -> Result<(), NoMemory> {
    let a = cochain(rt.alloc(), &[1, 0, 1])?;
    let b = cochain(rt.alloc(), &[1, 1, 0])?;
    let c = added(&rt, rt.alloc(), &a, &b)?;
    assert!(rt; c.degree == 2 && c.values.as_slice() == [0, 1, 1].as_slice());
    assert!(rt; !c.is_zero() && zero(&rt, rt.alloc(), &c)?.is_zero());
    Ok(())
}
