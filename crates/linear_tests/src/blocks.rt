//! Blocks over the field of two elements.
ghost use Rattle.std.specs.Prelude.{◌≡◌, IfOk};
ghost use Rattle.dense_blocks.specs.Vectors.{AllScalars};

use dense_blocks::{Block, Scalars, Two, all_scalars, apply, minus, product, sum};
use std::alloc::{AllocError as NoMemory, Global};
use std::process::Abort;

// Seventeen entries do not fit in place.
const ONES: [u8; 17] = [1; 17];

const ODD: [u8; 17] = [1, 0, 1, 0, 1, 0, 1, 0, 1, 0, 1, 0, 1, 0, 1, 0, 1];

const EVEN: [u8; 17] = [0, 1, 0, 1, 0, 1, 0, 1, 0, 1, 0, 1, 0, 1, 0, 1, 0];

pub fn block<F: Scalars>(
    rt: &impl Abort,
    alloc: Global,
    f: &F,
    shape: (u32, u32),
    entries: &[u8],
) -> Result<Block, NoMemory>
    ensures rows { IfOk result (λ b. b.rows ≡ shape.0) }
    ensures cols { IfOk result (λ b. b.cols ≡ shape.1) }
    ensures scalars { IfOk result (λ b. AllScalars (F.ops f.now) b.entries) }
{
    let (rows, cols) = shape;
    assert!(rt; Block::fits(rows, cols, entries.len()) && all_scalars(f, entries));
    Block::of(alloc, rows, cols, entries)
}

fn shows(b: &Block, rows: u32, cols: u32, entries: &[u8]) -> bool {
    b.rows == rows && b.cols == cols && b.entries.as_slice() == entries
}

#[test]
fn multiplies(rt: HostRuntime) -> Result<(), NoMemory> {
    let a = block(&rt, rt.alloc(), &Two, (2, 3), &[1, 0, 1, 0, 1, 1])?;
    let b = block(&rt, rt.alloc(), &Two, (3, 2), &[1, 1, 0, 1, 1, 0])?;
    let c = product(rt.alloc(), &Two, &a, &b)?;
    assert!(rt; shows(&c, 2, 2, &[0, 1, 1, 1]));
    Ok(())
}

#[test]
fn multiplies_to_seventeen_entries(rt: HostRuntime) -> Result<(), NoMemory> {
    let a = block(&rt, rt.alloc(), &Two, (17, 1), &ODD)?;
    let b = block(&rt, rt.alloc(), &Two, (1, 1), &[1])?;
    let c = product(rt.alloc(), &Two, &a, &b)?;
    assert!(rt; shows(&c, 17, 1, &ODD));
    Ok(())
}

#[test]
fn adds_seventeen_entries(rt: HostRuntime) -> Result<(), NoMemory> {
    let a = block(&rt, rt.alloc(), &Two, (1, 17), &ONES)?;
    let b = block(&rt, rt.alloc(), &Two, (1, 17), &ODD)?;
    let c = sum(rt.alloc(), &Two, &a, &b)?;
    assert!(rt; shows(&c, 1, 17, &EVEN));
    Ok(())
}

#[test]
fn negates(rt: HostRuntime) -> Result<(), NoMemory> {
    let a = block(&rt, rt.alloc(), &Two, (2, 1), &[1, 0])?;
    let b = minus(rt.alloc(), &Two, &a)?;
    assert!(rt; shows(&b, 2, 1, &[1, 0]));
    Ok(())
}

#[test]
fn applies(rt: HostRuntime) -> Result<(), NoMemory> {
    let a = block(&rt, rt.alloc(), &Two, (2, 3), &[1, 0, 1, 0, 1, 1])?;
    assert!(rt; all_scalars(&Two, &[1, 0, 0]) && !all_scalars(&Two, &[0, 2]));
    let image = apply(rt.alloc(), &Two, &a, &[1, 0, 0])?;
    assert!(rt; image.as_slice() == [1, 0].as_slice());
    Ok(())
}

#[test]
fn makes_blocks(rt: HostRuntime) -> Result<(), NoMemory> {
    let zero = Block::zero(rt.alloc(), 17, 1)?;
    assert!(rt; shows(&zero, 17, 1, &[0; 17]));
    let identity = Block::identity(rt.alloc(), 3)?;
    let twin = identity.copy(rt.alloc())?;
    assert!(rt; shows(&twin, 3, 3, &[1, 0, 0, 0, 1, 0, 0, 0, 1]));
    Ok(())
}

#[test]
fn has_rows(rt: HostRuntime) -> Result<(), NoMemory> {
    let identity = Block::identity(rt.alloc(), 3)?;
    assert!(rt; identity.row(1) == [0, 1, 0].as_slice());
    Ok(())
}
