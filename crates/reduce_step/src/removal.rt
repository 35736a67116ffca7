ghost use Rattle.std.specs.Prelude.{◌≡◌, IfOk, IfErr, OnOk, OnErr};
ghost use Rattle.dense_blocks.specs.Blocks.{matrix_of};
ghost use Rattle.block_complexes.specs.BlockComplexes.{IsBlockComplex};
ghost use Rattle.removals.specs.Removals.{IsRemoval};
ghost use Rattle.block_sparse.specs.Flags.{KeepsFlags};
ghost use Rattle.reduce_step.specs.Differences.{Fits};
ghost use Rattle.reduce_step.specs.Steps.{IsStepOf};
ghost use Rattle.reduce_step.specs.Logs.{IsStepFrom};
ghost use Rattle.reduce_step.specs.declared.record.Step.{Step};
ghost use Rattle.block_sparse.specs.StoredBlocks.{complex_in};

use crate::footprint::Footprint;
use crate::record::{Record, Step};
use block_sparse::Blocks;
use dense_blocks::Scalars;
use std::alloc::AllocError as NoMemory;

impl<F: Scalars> Record<F> {
    /// Removes the pair: puts the new corners, without flags, and takes `x` and `y` away; every other block stays with
    /// its flag.
    ///
    /// The record still [`fits`](Record::fits), and all blocks have scalars of the field. Takes what
    /// [`Blocks::set_grid`] and [`Blocks::remove_cell`] take. Fails only where memory does: then nothing has changed,
    /// and the record comes back.
    pub fn apply(self, b: &mut Blocks) -> Result<Step, (Record<F>, NoMemory)>
        requires fits { Fits b.old self.foot }
        requires over { IsBlockComplex (F.ops self.f) (complex_in b.old) }
        ensures removal { OnOk result (IsRemoval (F.ops self.f) (complex_in b.old) self.foot.x self.foot.y
            (matrix_of self.inverse) (complex_in b.new)) }
        ensures flags { OnOk result (KeepsFlags b.old self.foot.x self.foot.y b.new) }
        ensures step { IfOk result (IsStepOf self) }
        ensures step_from { IfOk result (IsStepFrom (F.ops self.f) (complex_in b.old)) }
        ensures err { OnErr result (b.new ≡ b.old) }
        ensures back { IfErr result (λ e. e.0 ≡ self) }
    {
        match self.remove(b) {
            Ok(()) => Ok(self.into_step()),
            Err(fault) => Err((self, fault)),
        }
    }

    /// Makes the removal; without memory nothing has changed.
    fn remove(&self, b: &mut Blocks) -> Result<(), NoMemory>
        requires fits { Fits b.old self.now.foot }
        requires over { IsBlockComplex (F.ops self.now.f) (complex_in b.old) }
        ensures removed { OnOk result (IsRemoval (F.ops self.now.f) (complex_in b.old) self.now.foot.x self.now.foot.y
            (matrix_of self.now.inverse) (complex_in b.new)
            × KeepsFlags b.old self.now.foot.x self.now.foot.y b.new) }
        ensures step_from { OnOk result ((step : Step) → IsStepOf self.now step
            → IsStepFrom (F.ops self.now.f) (complex_in b.old) step) }
        ensures err { OnErr result (b.new ≡ b.old) }
    {
        let _live = b.live();
        let foot = &self.foot;
        b.set_grid(
            foot.left.as_slice(),
            foot.below.as_slice(),
            &self.new_corners,
        )?;
        b.remove_cell(foot.x);
        b.remove_cell(foot.y);
        Ok(())
    }

    /// The step of the record.
    fn into_step(self) -> Step
        ensures { IsStepOf self result }
    {
        let Record { foot, inverse, .. } = self;
        let Footprint {
            x,
            y,
            left,
            below,
            pivot,
            row,
            column,
            ..
        } = foot;
        Step {
            x,
            y,
            left,
            below,
            pivot,
            inverse,
            row,
            column,
        }
    }
}
