//! Products over the field of two elements, worked by hand.
ghost use Rattle.std.specs.Prelude.{◌≡◌, IfOk};
ghost use Rattle.dense_blocks.specs.Two.{two};
ghost use Rattle.dense_blocks.specs.Vectors.{AllScalars};

use dense_blocks::{Block, Two, all_scalars};
use square_check::square;
use std::alloc::{AllocError as NoMemory, Global};
use std::process::Abort;

/// A block of two rows and columns.
fn block(rt: &impl Abort, alloc: Global, entries: &[u8]) -> Result<Block, NoMemory>
    ensures rows { IfOk result (λ b. b.rows ≡ 2) }
    ensures cols { IfOk result (λ b. b.cols ≡ 2) }
    ensures scalars { IfOk result (λ b. AllScalars two b.entries) }
{
    assert!(rt; Block::fits(2, 2, entries.len()) && all_scalars(&Two, entries));
    Block::of(alloc, 2, 2, entries)
}

#[test]
fn compares_products(rt: HostRuntime) -> Result<(), NoMemory> {
    let upper = block(&rt, rt.alloc(), &[1, 1, 0, 1])?;
    let lower = block(&rt, rt.alloc(), &[1, 0, 1, 1])?;
    let unit = block(&rt, rt.alloc(), &[1, 0, 0, 1])?;
    let whole = block(&rt, rt.alloc(), &[0, 1, 1, 1])?;
    assert!(rt; square(&Two, &upper, &lower, &unit, &whole));
    assert!(rt; !square(&Two, &upper, &lower, &unit, &lower));
    Ok(())
}
