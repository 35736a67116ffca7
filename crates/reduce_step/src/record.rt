ghost use Rattle.std.specs.Prelude.{◌≡◌, IfOk};
ghost use Rattle.reduce_step.specs.Parts.{AreFootprintParts};

use crate::footprint::Footprint;
use dense_blocks::{Block, Listed, Scalars};
use std::alloc::{AllocError as NoMemory, Global};
use std::marker::Model;

/// What the removal of a pair of cells would make of its footprint: the inverse of the pivot, and the new corners.
///
/// All entries are scalars of the field, the inverse is two-sided, and the new corners are `corners - column * inverse
/// * row`.
#[derive(Debug, Drop)]
pub struct Record<F: Scalars> {
    /// The field.
    pub f: F,
    /// The footprint.
    pub foot: Footprint,
    /// The inverse of the pivot.
    pub inverse: Block,
    /// The joined matrix of what the corners become.
    pub new_corners: Block,
}

impl<F: Scalars> Model for Record<F> {
    ghost use Rattle.reduce_step.specs.Records.{RecordValue, IsRecord};

    ghost Value = { RecordValue F };

    ghost view = { λ r. record { f = r.f; foot = r.foot; inverse = r.inverse; new_corners = r.new_corners } };

    ghost invariant = { λ r. IsRecord (F.ops r.f) r.foot r.inverse r.new_corners };
}

/// A removal that was made: the pair of cells, the cells and blocks around it as they stood before, and the inverse of
/// the pivot.
#[derive(Debug, Drop)]
pub struct Step {
    /// The cell that the pivot went from.
    pub x: u32,
    /// The cell that the pivot went to.
    pub y: u32,
    /// The cells other than `x` with a nonzero block to `y`, each with its size, rising.
    pub left: Listed<(u32, u8)>,
    /// The cells other than `y` with a nonzero block from `x`, each with its size, rising.
    pub below: Listed<(u32, u8)>,
    /// The square block from `x` to `y`.
    pub pivot: Block,
    /// Its inverse, of the same shape.
    pub inverse: Block,
    /// The joined matrix of the blocks from the cells on the left to `y`.
    pub row: Block,
    /// The joined matrix of the blocks from `x` to the cells below.
    pub column: Block,
    pub ghost parts: { AreFootprintParts x y left below pivot row column },
    pub ghost inverse_rows: { inverse.rows ≡ pivot.rows },
    pub ghost inverse_cols: { inverse.cols ≡ pivot.cols },
}

impl Step {
    /// An equal step.
    pub fn copy(&self, alloc: Global) -> Result<Step, NoMemory>
        ensures { IfOk result (λ step. step ≡ self.now) }
    {
        Ok(Step {
            x: self.x,
            y: self.y,
            left: copy_cells(alloc, &self.left)?,
            below: copy_cells(alloc, &self.below)?,
            pivot: self.pivot.copy(alloc)?,
            inverse: self.inverse.copy(alloc)?,
            row: self.row.copy(alloc)?,
            column: self.column.copy(alloc)?,
        })
    }
}

/// The same cells, each with its size.
fn copy_cells(alloc: Global, cells: &Listed<(u32, u8)>) -> Result<Listed<(u32, u8)>, NoMemory>
    ensures { IfOk result (λ copy. copy ≡ cells.now) }
{
    let copy = Vec::from_slice(alloc, cells.as_slice())?;
    Ok(Listed::of(copy))
}
