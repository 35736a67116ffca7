ghost use Rattle.std.specs.Prelude.{◌≡◌, ℕ, ◌<◌, ◌↔◌, All, IsOk, IfOk, IfErr, OnOk, OnErr, MatchOption, length};
ghost use Rattle.square_check.specs.Answers.{IsFirstOf};
ghost use Rattle.square_check.specs.Searches.{IsFirstFailure};
ghost use Rattle.square_check.specs.Squares.{Commutes};
ghost use Rattle.sheaf_data.specs.Sheaves.{IsSheaf};
ghost use Rattle.sheaf_data.specs.Drafts.{IsDraft};
ghost use Rattle.sheaf_data.specs.Refusals.{IsFault};
ghost use Rattle.sheaf_data.specs.Changes.{AreSameElsewhere};

use crate::draft::Draft;
use crate::fault::SealFault;
use dense_blocks::{Block, Listed, Scalars};
use incidence_check::check;
use square_check::{Touched, first_bad};
use std::alloc::{AllocError as NoMemory, Global};
use std::marker::Model;

/// A cellular sheaf: a draft whose incidences are regular and whose squares commute.
#[derive(Drop)]
pub struct Sheaf<F: Scalars> {
    draft: Draft<F>,
}

impl<F: Scalars> Model for Sheaf<F> {
    ghost use Rattle.sheaf_data.specs.Sheaves.{SheafData, IsSheaf};

    ghost Value = { SheafData F };

    ghost view = { λ s. s.draft };

    ghost invariant = { λ s. IsSheaf (F.ops s.draft.field) s.draft.complex s.draft.stalks s.draft.blocks };
}

impl<F: Scalars> Draft<F> {
    /// The sheaf of this draft; takes no memory.
    ///
    /// # Errors
    ///
    /// `Complex` with the first fault of the incidences; where there is none, `Noncommuting` with the first pair of
    /// cells, in order, whose square does not commute. The draft is handed back.
    pub fn seal(self) -> Result<Sheaf<F>, (Draft<F>, SealFault)>
        ensures sheaf { IsOk result ↔ IsSheaf (F.ops self.field) self.complex self.stalks self.blocks }
        ensures same { IfOk result (λ sheaf. sheaf ≡ self) }
        ensures handed_back { IfErr result (λ e. e.0 ≡ self) }
        ensures fault { IfErr result (λ e. IsFault (F.ops self.field) self.complex self.blocks e.1) }
    {
        match self.fault() {
            None => Ok(Sheaf { draft: self }),
            Some(fault) => Err((self, fault)),
        }
    }

    /// Why the draft is no sheaf, if it is none.
    fn fault(&self) -> Option<SealFault>
        ensures { MatchOption result
            (IsSheaf (F.ops self.now.field) self.now.complex self.now.stalks self.now.blocks)
            (IsFault (F.ops self.now.field) self.now.complex self.now.blocks) }
    {
        if let Err(fault) = check(&self.complex) {
            return Some(SealFault::Complex(fault));
        }
        let blocks = self.blocks.as_slice();
        let (s, u) = first_bad(&self.field, &self.complex, blocks, Touched::All)?;
        Some(SealFault::Noncommuting { s, u })
    }
}

impl<F: Scalars> Sheaf<F> {
    /// The complex, the field, the stalks and the blocks.
    pub fn draft(&self) -> &Draft<F>
        ensures draft { result.now ≡ self.now }
        ensures sheaf { IsSheaf (F.ops self.now.field) self.now.complex self.now.stalks self.now.blocks }
    {
        &self.draft
    }

    /// An equal sheaf.
    pub fn copy(&self, alloc: Global) -> Result<Sheaf<F>, NoMemory>
        ensures { IfOk result (λ sheaf. sheaf ≡ self.now) }
    {
        Ok(Sheaf {
            draft: self.draft.copy(alloc)?,
        })
    }

    /// Puts these stalks and blocks in place of all that were there, where the blocks of the faces at the places
    /// `touched` may differ from the present ones. Only squares of these faces are visited. Takes no memory.
    ///
    /// # Errors
    ///
    /// The first pair of cells, in order, whose square does not commute; the sheaf is then as it was.
    pub fn put_all(
        &mut self,
        stalks: Listed<u8>,
        blocks: Listed<Block>,
        touched: &[u32],
    ) -> Result<(), (u32, u32)>
        requires fits { IsDraft (F.ops self.old.field) self.old.complex stalks blocks }
        requires faces { All (λ p. p < length self.old.complex.faces) touched.now }
        requires others { AreSameElsewhere touched.now self.old.blocks blocks }
        ensures commute { IsOk result ↔ ((s u : ℕ) → Commutes (F.ops self.old.field) self.old.complex blocks s u) }
        ensures refused { IfErr result (λ e. IsFirstOf (Commutes (F.ops self.old.field) self.old.complex blocks)
            (length self.old.complex.dims) e.0 e.1) }
        ensures ok { OnOk result (self.new ≡ record self.old { stalks = stalks; blocks = blocks }) }
        ensures err { OnErr result (self.new ≡ self.old) }
    {
        if let Some(pair) = self.first_bad_with(&stalks, &blocks, touched) {
            return Err(pair);
        }
        self.draft.replace(stalks, blocks);
        Ok(())
    }

    /// The first pair of cells whose square does not commute with these stalks and blocks.
    fn first_bad_with(
        &self,
        stalks: &Listed<u8>,
        blocks: &Listed<Block>,
        touched: &[u32],
    ) -> Option<(u32, u32)>
        requires fits { IsDraft (F.ops self.now.field) self.now.complex stalks.now blocks.now }
        requires faces { All (λ p. p < length self.now.complex.faces) touched.now }
        requires others { AreSameElsewhere touched.now self.now.blocks blocks.now }
        ensures { IsFirstFailure (Commutes (F.ops self.now.field) self.now.complex blocks.now)
            (length self.now.complex.dims) result }
    {
        let draft = &self.draft;
        let touched = Touched::Faces(touched);
        first_bad(&draft.field, &draft.complex, blocks.as_slice(), touched)
    }
}
