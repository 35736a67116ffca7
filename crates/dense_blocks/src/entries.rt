ghost use Rattle.std.specs.Prelude.{◌≡◌, [], ◌∷◌, ◌++◌, ◌*◌, ◌<◌, length, IfOk, OnOk, OnErr};
ghost use Rattle.dense_blocks.specs.Vectors.{AllScalars, zeros, plus, multiple, combination};
ghost use Rattle.dense_blocks.specs.Matrices.{cut};

use crate::scalars::Scalars;
use smallvec::SmallVec;
use std::alloc::{AllocError as NoMemory, Global};
use std::marker::Model;

/// So many entries take no allocation.
const FEW: usize = 16;

/// The entries of a small matrix, seen by contracts as a list; up to sixteen take no allocation.
#[derive(Debug, Drop)]
pub struct Entries {
    items: SmallVec<u8, FEW>,
}

impl Model for Entries {
    ghost use Rattle.std.specs.Prelude.{List, ℕ};

    ghost Value = { List ℕ };

    ghost view = { λ e. e.items.items };
}

impl Entries {
    /// These entries.
    pub fn of(alloc: Global, entries: &[u8]) -> Result<Entries, NoMemory>
        ensures { IfOk result (λ e. e ≡ entries.now) }
    {
        Ok(Entries {
            items: SmallVec::from_slice(alloc, entries)?,
        })
    }

    /// The entries, in order.
    pub fn as_slice(&self) -> &[u8]
        ensures { result.now ≡ self.now }
    {
        self.items.as_slice()
    }

    /// The number of entries.
    pub fn len(&self) -> usize
        ensures { result ≡ length self.now }
    {
        self.items.len()
    }

    /// No entries, with room for `count`.
    pub fn with_room(alloc: Global, count: usize) -> Result<Entries, NoMemory>
        ensures { IfOk result (λ e. e ≡ []) }
    {
        Ok(Entries {
            items: SmallVec::with_capacity(alloc, count)?,
        })
    }

    /// Adds an entry at the end; without memory nothing changes.
    pub fn push(&mut self, entry: u8) -> Result<(), NoMemory>
        ensures ok { OnOk result (self.new ≡ self.old ++ entry ∷ []) }
        ensures err { OnErr result (self.new ≡ self.old) }
    {
        self.items.push(entry)?;
        Ok(())
    }

    /// Adds these entries at the end; without memory nothing changes.
    pub fn push_all(&mut self, more: &[u8]) -> Result<(), NoMemory>
        ensures ok { OnOk result (self.new ≡ self.old ++ more.now) }
        ensures err { OnErr result (self.new ≡ self.old) }
    {
        self.items.extend_from_slice(more)
    }

    /// The entries in a vector that may be changed.
    pub(crate) fn into_items(self) -> SmallVec<u8, FEW>
        ensures { result.items ≡ self }
    {
        let Entries { items } = self;
        items
    }

    /// Adds to the entries `k` times as many others.
    pub(crate) fn add_scaled<F: Scalars>(&mut self, f: &F, k: u8, others: &[u8])
        requires sizes { length others.now ≡ length self.old }
        requires scalar { k < (F.ops f.now).order }
        requires scalars { AllScalars (F.ops f.now) self.old }
        requires other_scalars { AllScalars (F.ops f.now) others.now }
        ensures { self.new ≡ plus (F.ops f.now) self.old (multiple (F.ops f.now) k others.now) }
    {
        f.add_scaled(self.items.as_mut_slice(), k, others);
    }

    /// Multiplies each entry by `k`.
    pub(crate) fn scale<F: Scalars>(&mut self, f: &F, k: u8)
        requires scalar { k < (F.ops f.now).order }
        requires scalars { AllScalars (F.ops f.now) self.old }
        ensures { self.new ≡ multiple (F.ops f.now) k self.old }
    {
        f.scale(self.items.as_mut_slice(), k);
    }

    /// Adds `count` zeros at the end; without memory some may have been added.
    pub fn push_zeros(&mut self, count: usize) -> Result<(), NoMemory>
        ensures { OnOk result (self.new ≡ self.old ++ zeros count) }
    {
        for _added in 0..count / FEW {
            self.push_all(&[0; FEW])?;
        }
        self.push_all(&[0; FEW][..count % FEW])?;
        Ok(())
    }

    /// Adds at the end the linear combination, by the coefficients, of rows of `columns` entries
    /// that are given one after another; without memory some entries may have been added.
    pub(crate) fn push_combination<F: Scalars>(
        &mut self,
        f: &F,
        columns: usize,
        coefficients: &[u8],
        rows: &[u8],
    ) -> Result<(), NoMemory>
        requires full { length rows.now ≡ length coefficients.now * columns }
        requires coefficient_scalars { AllScalars (F.ops f.now) coefficients.now }
        requires row_scalars { AllScalars (F.ops f.now) rows.now }
        ensures { OnOk result (self.new ≡ self.old ++
            combination (F.ops f.now) columns coefficients.now (cut (length coefficients.now) columns rows.now)) }
    {
        let start = self.len();
        self.push_zeros(columns)?;
        let all = self.items.as_mut_slice();
        f.add_combination(&mut all[start..], coefficients, rows);
        Ok(())
    }
}
