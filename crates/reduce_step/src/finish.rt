ghost use Rattle.std.specs.Prelude.{◌≡◌, IfOk, IfErr};
ghost use Rattle.dense_blocks.specs.Vectors.{AllScalars};
ghost use Rattle.dense_blocks.specs.Blocks.{matrix_of};
ghost use Rattle.dense_blocks.specs.BlockFacts.{IsBlock};
ghost use Rattle.dense_blocks.specs.Inverses.{IsInverseBlock, Inverts};
ghost use Rattle.reduce_step.specs.Footprints.{IsOverField};
ghost use Rattle.reduce_step.specs.Records.{schur_complement};

use crate::footprint::Footprint;
use crate::record::Record;
use dense_blocks::{Block, Inverse, Scalars, invert, minus, product, sum};
use std::alloc::{AllocError as NoMemory, Global};

/// What became of a footprint.
#[derive(Debug, Drop)]
pub enum Finish<F: Scalars> {
    /// The record: the pivot has an inverse.
    Made(Record<F>),
    /// The pivot has no inverse.
    Singular {
        /// The cell that the pivot goes from.
        x: u32,
        /// The cell that the pivot goes to.
        y: u32,
        /// The pivot.
        pivot: Block,
        /// A vector that is not zero and that the pivot sends to zero.
        kernel: Vec<u8>,
    },
}

impl Footprint {
    ghost use Rattle.reduce_step.specs.Finishes.{Finishes, IsRecordOf, IsSingular};

    /// Inverts the pivot and computes the new corners; where the pivot has no inverse, gives a vector that shows it.
    ///
    /// All entries are scalars of the field. Takes the time of [`invert`] and then, for a pivot of n rows and corners
    /// of m rows, n(n + m) products of scalars, n negatives and m + n(n + m) sums for each column of the corners. Fails
    /// only where memory does, and then the footprint comes back.
    pub fn finish<F: Scalars>(
        self,
        alloc: Global,
        f: &F,
    ) -> Result<Finish<F>, (Footprint, NoMemory)>
        requires { IsOverField (F.ops f.now) self }
        ensures finish { IfOk result (Finishes (F.ops f.now) f.now self) }
        ensures back { IfErr result (λ e. e.0 ≡ self) }
    {
        match invert(alloc, f, &self.pivot) {
            Ok(inverse) => self.finish_by(alloc, f, inverse),
            Err(fault) => Err((self, fault)),
        }
    }

    /// Computes the new corners with the inverse of the pivot that is handed in.
    ///
    /// All entries are scalars of the field. Takes the time of [`Footprint::finish`] without the inversion. Fails only
    /// where memory does, and then the footprint and the inverse come back.
    pub fn finish_with<F: Scalars>(
        self,
        alloc: Global,
        f: &F,
        inverse: Block,
    ) -> Result<Record<F>, (Footprint, Block, NoMemory)>
        requires over { IsOverField (F.ops f.now) self }
        requires inverse { IsInverseBlock (F.ops f.now) self.pivot inverse }
        ensures record { IfOk result (IsRecordOf (F.ops f.now) f.now self) }
        ensures inverse { IfOk result (λ r. r.inverse ≡ inverse) }
        ensures back { IfErr result (λ e. (e.0 ≡ self) × (e.1 ≡ inverse)) }
    {
        match new_corners(alloc, f, &self, &inverse) {
            Ok(new_corners) => Ok(Record {
                f: *f,
                foot: self,
                inverse,
                new_corners,
            }),
            Err(fault) => Err((self, inverse, fault)),
        }
    }

    /// What becomes of the footprint by what is known of an inverse of the pivot.
    fn finish_by<F: Scalars>(
        self,
        alloc: Global,
        f: &F,
        inverse: Inverse,
    ) -> Result<Finish<F>, (Footprint, NoMemory)>
        requires over { IsOverField (F.ops f.now) self }
        requires inverts { Inverts (F.ops f.now) self.pivot inverse }
        ensures finish { IfOk result (Finishes (F.ops f.now) f.now self) }
        ensures back { IfErr result (λ e. e.0 ≡ self) }
    {
        match inverse {
            Inverse::Both(inverse) => self.made(alloc, f, inverse),
            Inverse::Singular(kernel) => {
                let Footprint { x, y, pivot, .. } = self;
                Ok(Finish::Singular {
                    x,
                    y,
                    pivot,
                    kernel,
                })
            }
        }
    }

    /// The record with this inverse of the pivot.
    fn made<F: Scalars>(
        self,
        alloc: Global,
        f: &F,
        inverse: Block,
    ) -> Result<Finish<F>, (Footprint, NoMemory)>
        requires over { IsOverField (F.ops f.now) self }
        requires inverse { IsInverseBlock (F.ops f.now) self.pivot inverse }
        ensures finish { IfOk result (Finishes (F.ops f.now) f.now self) }
        ensures back { IfErr result (λ e. e.0 ≡ self) }
    {
        match self.finish_with(alloc, f, inverse) {
            Ok(record) => Ok(Finish::Made(record)),
            Err((foot, _, fault)) => Err((foot, fault)),
        }
    }
}

/// The corners less the column times the inverse times the row.
fn new_corners<F: Scalars>(
    alloc: Global,
    f: &F,
    foot: &Footprint,
    inverse: &Block,
) -> Result<Block, NoMemory>
    requires over { IsOverField (F.ops f.now) foot.now }
    requires inverse { IsInverseBlock (F.ops f.now) foot.now.pivot inverse.now }
    ensures block { IfOk result (λ c. IsBlock c foot.now.corners.rows foot.now.corners.cols
        (schur_complement (F.ops f.now) foot.now (matrix_of inverse.now))) }
    ensures scalars { IfOk result (λ c. AllScalars (F.ops f.now) c.entries) }
{
    let moved = product(alloc, f, inverse, &foot.row)?;
    let negative = minus(alloc, f, &moved)?;
    let change = product(alloc, f, &foot.column, &negative)?;
    let corners = sum(alloc, f, &foot.corners, &change)?;
    Ok(corners)
}
