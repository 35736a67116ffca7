use crate::classes::{basis_of, class_of, kept_cohomology, scalars};
use crate::cohomology::Cohomology;
use crate::ending::Ending;
use crate::equivalence::equivalence_reply;
use crate::extensions::{extension_of, sections_of};
use crate::numbers::betti;
use crate::reduction::reduced_reply;
use cochain_vec::Cochain;
use dense_blocks::Scalars;
use pair_commit::Slot;
use sheaf_words::{Numbers, Query, Reply};
use std::alloc::{AllocError as NoMemory, Global};
use std::marker::Model;

/// A slot that answers questions, and keeps what it computed for them.
#[derive(Debug, Drop)]
pub struct Answerer<F: Scalars> {
    slot: Slot<F>,
    ending: Option<Ending>,
    cohomology: Option<Cohomology>,
}

impl<F: Scalars> Model for Answerer<F> {
    ghost use Rattle.std.specs.Prelude.{IfSome};
    ghost use Rattle.pair_commit.specs.Slots.{SlotValue};
    ghost use Rattle.query_answers.specs.Endings.{IsCohomologyOf, IsEndingOf};

    ghost Value = { SlotValue F };

    ghost view = { λ s. s.slot };

    ghost invariant = { λ s. IfSome s.ending (IsEndingOf (F.ops s.slot.f) s.slot.present)
        × IfSome s.cohomology (IsCohomologyOf (F.ops s.slot.f) s.slot) };
}

impl<F: Scalars> Answerer<F> {
    ghost use Rattle.std.specs.Prelude.{◌≡◌, ◌<◌, ◌≤◌, ℕ, true, All, IfOk};
    ghost use Rattle.rising_lists.specs.Rising.{has};
    ghost use Rattle.block_complexes.specs.BlockComplexes.{cells, degree_of};
    ghost use Rattle.cochain_vec.specs.CochainComplexes.{IsCochainComplex};
    ghost use Rattle.block_complexes.specs.Cochains.{complex_of};
    ghost use Rattle.block_sparse.specs.StoredBlocks.{complex_in};
    ghost use Rattle.query_answers.specs.Answers.{IsAnswered, IsAnswerIn};

    /// The slot, with nothing computed.
    pub fn new(slot: Slot<F>) -> Answerer<F>
        ensures { result ≡ slot }
    {
        Answerer {
            slot,
            ending: None,
            cohomology: None,
        }
    }

    /// The answer to a question: what is right for the base of the slot, with each choice that of a solo order.
    ///
    /// Each live cell of the base has a degree below `degrees`, and the coboundary of each coboundary is zero in the
    /// base. The first question but on what a reduction leaves takes what [`finish`](scalar_finish::finish) takes; the
    /// first on a basis, a class, sections or an extension also what [`of_log`](equivalences::of_log) and
    /// [`compose`](equivalences::compose) take; what they made is kept. A class takes what
    /// [`classify`](cocycle_bases::classify) takes, an extension what [`extend`](sections::extend) takes, and each
    /// reply one step for each entry. Fails only where memory does, and the value stays the same.
    pub fn reply(&mut self, alloc: Global, degrees: u8, query: &Query) -> Result<Reply, NoMemory>
        requires degrees { All (λ l. l.1 < degrees) self.old.base.live }
        requires few { degrees ≤ 16 }
        requires closed { IsCochainComplex (F.ops self.old.f) (complex_of (complex_in self.old.base)) }
        requires answered { IsAnswered self.old.base.live query.now }
        ensures same { self.new ≡ self.old }
        ensures right { IfOk result (IsAnswerIn (F.ops self.old.f) degrees self.old query.now) }
    {
        match query {
            Query::Betti => betti(alloc, &self.slot, &mut self.ending, degrees),
            Query::Reduce => reduced_reply(alloc, &self.slot, degrees),
            Query::Equiv => equivalence_reply(alloc, &self.slot, degrees),
            Query::Basis { k } => self.basis_reply(alloc, *k),
            Query::Class { k, z } => self.class_reply(alloc, *k, z),
            Query::Sections => self.sections_reply(alloc),
            Query::Extend { s, v } => self.extension_reply(alloc, *s, v),
        }
    }

    /// The basis of degree `k`.
    fn basis_reply(&mut self, alloc: Global, k: u8) -> Result<Reply, NoMemory>
        requires closed { IsCochainComplex (F.ops self.old.f) (complex_of (complex_in self.old.base)) }
        requires degree { k ≤ 15 }
        ensures same { self.new ≡ self.old }
        ensures right { (degrees : ℕ)
            → IfOk result (IsAnswerIn (F.ops self.old.f) degrees self.old (Query.Basis k)) }
    {
        let own = kept_cohomology(alloc, &self.slot, &mut self.ending, &mut self.cohomology)?;
        let reply = basis_of(alloc, &self.slot, &own, k);
        self.cohomology = Some(own);
        reply
    }

    /// The class of the numbers, as a cochain of degree `k`.
    fn class_reply(&mut self, alloc: Global, k: u8, z: &Numbers) -> Result<Reply, NoMemory>
        requires closed { IsCochainComplex (F.ops self.old.f) (complex_of (complex_in self.old.base)) }
        requires degree { k ≤ 15 }
        ensures same { self.new ≡ self.old }
        ensures right { (degrees : ℕ)
            → IfOk result (IsAnswerIn (F.ops self.old.f) degrees self.old (Query.Class k z.now)) }
    {
        let numbers = z.as_slice();
        if numbers.len() != self.slot.base().coordinates(k) {
            return Ok(Reply::BadLength);
        }
        let Some(values) = scalars(alloc, &self.slot.field(), numbers)? else {
            return Ok(Reply::BadEntry);
        };
        let own = kept_cohomology(alloc, &self.slot, &mut self.ending, &mut self.cohomology)?;
        let reply = class_of(alloc, &self.slot, &own, &Cochain { degree: k, values });
        self.cohomology = Some(own);
        reply
    }

    /// A basis of the global sections.
    fn sections_reply(&mut self, alloc: Global) -> Result<Reply, NoMemory>
        requires closed { IsCochainComplex (F.ops self.old.f) (complex_of (complex_in self.old.base)) }
        ensures same { self.new ≡ self.old }
        ensures right { (degrees : ℕ)
            → IfOk result (IsAnswerIn (F.ops self.old.f) degrees self.old Query.Sections) }
    {
        let own = kept_cohomology(alloc, &self.slot, &mut self.ending, &mut self.cohomology)?;
        let reply = sections_of(alloc, &self.slot, &own);
        self.cohomology = Some(own);
        reply
    }

    /// Whether the numbers, as a value at `s`, extend to a global section.
    fn extension_reply(&mut self, alloc: Global, s: u32, v: &Numbers) -> Result<Reply, NoMemory>
        requires closed { IsCochainComplex (F.ops self.old.f) (complex_of (complex_in self.old.base)) }
        requires vertex { has s (cells self.old.base.live) ≡ true → degree_of self.old.base.live s ≡ 0 }
        ensures same { self.new ≡ self.old }
        ensures right { (degrees : ℕ)
            → IfOk result (IsAnswerIn (F.ops self.old.f) degrees self.old (Query.Extend s v.now)) }
    {
        let numbers = v.as_slice();
        if numbers.len() != self.slot.base().size(s) as usize {
            return Ok(Reply::BadLength);
        }
        let Some(values) = scalars(alloc, &self.slot.field(), numbers)? else {
            return Ok(Reply::BadEntry);
        };
        let own = kept_cohomology(alloc, &self.slot, &mut self.ending, &mut self.cohomology)?;
        let reply = extension_of(alloc, &self.slot, &own, s, &values);
        self.cohomology = Some(own);
        reply
    }
}
