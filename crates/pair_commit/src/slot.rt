ghost use Rattle.std.specs.Prelude.{◌≡◌, ◌↔◌, [], All, IfOk, IfErr, OnOk, OnErr, IsTrue, map};
ghost use Rattle.dense_blocks.specs.Blocks.{matrix_of};
ghost use Rattle.dense_blocks.specs.Inverses.{InKernel};
ghost use Rattle.block_complexes.specs.BlockComplexes.{IsBlockComplex};
ghost use Rattle.removals.specs.Reductions.{IsIrreducible};
ghost use Rattle.block_sparse.specs.StoredBlocks.{StandsAt, complex_in};
ghost use Rattle.block_sparse.specs.Flags.{HasNoFlags};
ghost use Rattle.pair_commit.specs.Slots.{KeepsInverse, IsTried};

use crate::blocks::stands;
use crate::carried::{copy_carried, take_off};
use crate::kept::{Kept, keep_all};
use crate::log::{append, copy_log};
use crate::next::next_work;
use crate::work::{CommitFault, Work};
use block_sparse::Blocks;
use dense_blocks::{Block, Scalars};
use pair_find::next_candidate;
use reduce_step::{Differs, Record, Step};
use std::alloc::{AllocError as NoMemory, Global};
use std::collections::VecDeque;
use std::marker::Model;

/// A reduction under way: a block complex, the steps made so far, what they leave of it, and pivots with their inverses
/// that are carried over from another reduction.
///
/// All is over one field: the steps are removals, one after another; no block with a flag has an inverse; and each
/// inverse that is carried is two-sided.
#[derive(Debug, Drop)]
pub struct Slot<F: Scalars> {
    f: F,
    base: Blocks,
    present: Blocks,
    log: Vec<Step>,
    carried: VecDeque<Kept>,
}

impl<F: Scalars> Model for Slot<F> {
    ghost use Rattle.pair_commit.specs.Slots.{SlotValue, IsSlot};

    ghost Value = { SlotValue F };

    ghost view = { λ s. record {
      f = s.f;
      base = s.base;
      present = s.present;
      log = s.log.items;
      carried = s.carried.items;
    } };

    ghost invariant = { λ s. IsSlot (F.ops s.f) s.base s.present s.log.items s.carried.items };
}

impl<F: Scalars> Slot<F> {
    ghost use Rattle.pair_commit.specs.Slots.{IsSlot};
    ghost use Rattle.pair_commit.specs.Takes.{MayFinish, Takes};
    ghost use Rattle.pair_commit.specs.Commits.{IsCommitted, IsMarked, Refuses, kept_of};

    /// The slot of a block complex over the field, with no step made.
    ///
    /// No block has its flag set ([`Blocks::has_no_flags`]); what is carried are square blocks with their inverses,
    /// the first to be tried first. Copies the blocks. Fails only where memory does.
    pub fn start(alloc: Global, f: F, base: Blocks, carried: Vec<Kept>) -> Result<Slot<F>, NoMemory>
        requires over { IsBlockComplex (F.ops f) (complex_in base) }
        requires unflagged { HasNoFlags base }
        requires inverses { All (KeepsInverse (F.ops f)) carried.items }
        ensures { IfOk result (λ s. s ≡ record {
          f = f;
          base = base;
          present = base;
          log = [];
          carried = carried.items;
        }) }
    {
        let present = base.copy(alloc)?;
        Ok(Slot {
            f,
            base,
            present,
            log: Vec::new(alloc),
            carried: VecDeque::from_vec(carried),
        })
    }

    /// An equal slot. Takes one step for each cell, block, step and entry. Fails only where memory does.
    pub fn copy(&self, alloc: Global) -> Result<Slot<F>, NoMemory>
        ensures { IfOk result (λ s. s ≡ self.now) }
    {
        Ok(Slot {
            f: self.f,
            base: self.base.copy(alloc)?,
            present: self.present.copy(alloc)?,
            log: copy_log(alloc, &self.log)?,
            carried: copy_carried(alloc, &self.carried)?,
        })
    }

    /// What is to be tried next: `Finished` exactly where each square block has its flag set. Else the first carried
    /// pivot decides: `Carried` exactly where it stands at its pair, `Dropped` exactly where it does not. Where nothing
    /// is carried, `Try` with the next candidate from the pair `from` on.
    ///
    /// Only `Dropped` changes the slot: the pivot is carried no more. Takes what [`next_candidate`] and
    /// [`Footprint::copy`](reduce_step::Footprint::copy) take. Fails only where memory does, and then nothing has
    /// changed.
    pub fn take(&mut self, from: (u32, u32)) -> Result<Work, NoMemory>
        ensures takes { IfOk result (λ work. Takes self.old.present self.old.carried from work self.new.carried) }
        ensures may_finish { IfOk result (MayFinish (F.ops self.old.f)) }
        ensures rest { self.new ≡ record self.old { carried = self.new.carried } }
        ensures err { OnErr result (self.new ≡ self.old) }
    {
        next_work(&self.present, &mut self.carried, from)
    }

    /// Removes the record's pair, if nothing differs from what the record kept; takes the first carried pivot off, if
    /// it is of this pair. The record is over the slot's field.
    ///
    /// Takes what [`Record::fits`] and [`Record::apply`] take.
    ///
    /// # Errors
    ///
    /// `Stale` exactly where the record does not fit, with the first pair at which something differs; `NoMemory` where
    /// memory fails. Nothing has then changed.
    pub fn commit(&mut self, r: Record<F>) -> Result<(), CommitFault>
        requires { r.f ≡ self.old.f }
        ensures committed { OnOk result (IsCommitted (F.ops self.old.f) self.old r self.new) }
        ensures refused { IfErr result (Refuses self.old.present r.foot) }
        ensures err { OnErr result (self.new ≡ self.old) }
    {
        if let Err(differs) = r.fits(&self.present) {
            return Err(CommitFault::Stale {
                s: differs.s,
                t: differs.t,
            });
        }
        let x = r.foot.x;
        let y = r.foot.y;
        match append(&mut self.present, &mut self.log, r) {
            Ok(()) => {
                take_off(&mut self.carried, x, y);
                Ok(())
            }
            Err(_) => Err(CommitFault::NoMemory),
        }
    }

    /// Sets the flag of this square block, which a vector of its kernel shows to have no inverse. Takes no memory, and
    /// one step for each entry of the block.
    ///
    /// # Errors
    ///
    /// The pair, exactly where another block stands there, or none. Nothing has then changed.
    pub fn mark(&mut self, s: u32, t: u32, block: &Block, kernel: &[u8]) -> Result<(), Differs>
        requires square { block.now.rows ≡ block.now.cols }
        requires kernel { InKernel (F.ops self.old.f) block.now.rows (matrix_of block.now) kernel.now }
        ensures marked { OnOk result (IsMarked self.old s t block.now self.new) }
        ensures pair { IfErr result (λ d. (d.s ≡ s) × (d.t ≡ t)) }
        ensures differs { OnErr result (StandsAt self.old.present s t block.now → ⊥) }
        ensures err { OnErr result (self.new ≡ self.old) }
    {
        if stands(&self.present, s, t, block) {
            self.present.flag(s, t);
            Ok(())
        } else {
            Err(Differs { s, t })
        }
    }

    /// The pair, the pivot and the inverse of each step, in order. Fails only where memory does.
    pub fn keep(&self) -> Result<Vec<Kept>, NoMemory>
        ensures kept { IfOk result (λ kept. kept.items ≡ map kept_of self.now.log) }
        ensures inverses { IfOk result (λ kept. All (KeepsInverse (F.ops self.now.f)) kept.items) }
    {
        keep_all(*self.log.allocator(), &self.log)
    }

    /// The field.
    pub fn field(&self) -> F
        ensures { result ≡ self.now.f }
    {
        self.f
    }

    /// The block complex at the start.
    pub fn base(&self) -> &Blocks
        ensures { result.now ≡ self.now.base }
    {
        &self.base
    }

    /// What the steps leave.
    pub fn now(&self) -> &Blocks
        ensures present { result.now ≡ self.now.present }
        ensures slot { IsSlot (F.ops self.now.f) self.now.base self.now.present self.now.log self.now.carried }
    {
        &self.present
    }

    /// The steps, in order.
    pub fn log(&self) -> &[Step]
        ensures { result.now ≡ self.now.log }
    {
        &self.log
    }

    /// Whether each square block has its flag set; no pair can then be removed. Takes what [`next_candidate`] takes.
    pub fn irreducible(&self) -> bool
        ensures tried { IsTrue result ↔ IsTried self.now.present }
        ensures irreducible { IsTrue result → IsIrreducible (F.ops self.now.f) (complex_in self.now.present) }
    {
        // This call is made for its clauses alone.
        let _live = self.present.live();
        next_candidate(&self.present, (0, 0)).is_none()
    }
}
