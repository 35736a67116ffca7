ghost use Rattle.std.specs.Prelude.{◌≡◌, IfOk, map};
ghost use Rattle.pair_commit.specs.Commits.{kept_of};

use dense_blocks::Block;
use reduce_step::Step;
use std::alloc::{AllocError as NoMemory, Global};

/// A pivot that was inverted, with its inverse.
#[derive(Debug, Drop)]
pub struct Kept {
    /// The cell that the pivot went from.
    pub x: u32,
    /// The cell that the pivot went to.
    pub y: u32,
    /// The square block from `x` to `y`.
    pub pivot: Block,
    /// Its inverse, of the same shape.
    pub inverse: Block,
}

impl Kept {
    /// An equal pivot with its inverse.
    pub fn copy(&self, alloc: Global) -> Result<Kept, NoMemory>
        ensures { IfOk result (λ kept. kept ≡ self.now) }
    {
        Ok(Kept {
            x: self.x,
            y: self.y,
            pivot: self.pivot.copy(alloc)?,
            inverse: self.inverse.copy(alloc)?,
        })
    }
}

/// What each step inverted.
pub(crate) fn keep_all(alloc: Global, log: &[Step]) -> Result<Vec<Kept>, NoMemory>
    ensures { IfOk result (λ kept. kept.items ≡ map kept_of log.now) }
{
    let mut kept = Vec::with_capacity(alloc, log.len())?;
    for step in log {
        let one = keep(alloc, step)?;
        kept.push(one)?;
    }
    Ok(kept)
}

/// What a step inverted.
fn keep(alloc: Global, step: &Step) -> Result<Kept, NoMemory>
    ensures { IfOk result (λ kept. kept ≡ kept_of step.now) }
{
    Ok(Kept {
        x: step.x,
        y: step.y,
        pivot: step.pivot.copy(alloc)?,
        inverse: step.inverse.copy(alloc)?,
    })
}
