ghost use Rattle.std.specs.Prelude.{◌≡◌, ℕ, ◌<◌, ◌↔◌, [], ◌∷◌, ◌++◌, None, Some, length, map, slice_get, slice_set};
ghost use Rattle.std.specs.Prelude.{nat_eq, slice_index_or, ◌&&◌, IsTrue, IfOk, IfSome, OnOk, OnErr, IsErrOf};
ghost use Rattle.std.specs.List.Sorted.{IsStrictlyIncreasing, IsNonDecreasing};
ghost use Rattle.indexmap.specs.IndexMap.{get};
ghost use Rattle.cell_complex.specs.Neighbours.{neighbour_lists, with_cell};
ghost use Rattle.cell_complex.specs.Complexes.{sign, faces_of, middles};
ghost use Rattle.cell_complex.specs.Invariants.{place, AreCells, IsComplex, cofaces_of, with_face};
ghost use Rattle.cell_complex.specs.Verdicts.{face_fault};
ghost use Rattle.cell_complex.specs.Builds.{AllAccepted, IsFirstFault};

use crate::face::{Face, Sign};
use crate::fault::{AddFault, BuildFault, FaceFault};
use crate::guesses::Guesses;
use crate::middles::Middles;
use crate::neighbours::Neighbours;
use indexmap::IndexMap;
use std::alloc::{AllocError as NoMemory, Global};
use std::marker::Model;

/// Cells with dimensions, and faces with signs, in order of insertion.
///
/// At most 4,096 cells, each of a dimension of at most 15. The pairs of cells that faces join are distinct, and the
/// second cell of each is one dimension above the first. The sign and the place of a face are one look-up in a hash
/// table away, and none where a guess of the place is right; the lists of faces and of cofaces are kept, and rising.
/// Reading takes no memory.
#[derive(Debug, Drop)]
pub struct Complex {
    dims: Vec<u8>,
    signs: IndexMap<(u32, u32), Sign>,
    below: Neighbours,
    above: Neighbours,
    guesses: Guesses,
}

impl Model for Complex {
    ghost use Rattle.cell_complex.specs.Complexes.{CellComplex};
    ghost use Rattle.cell_complex.specs.Fields.{complex_from, AreNeighbourLists};
    ghost use Rattle.cell_complex.specs.Neighbours.{neighbour_lists};

    ghost Value = { CellComplex };

    ghost view = { λ c. complex_from c.dims.items c.signs.entries };

    ghost invariant = { λ c. AreNeighbourLists (complex_from c.dims.items c.signs.entries)
        (neighbour_lists c.below) (neighbour_lists c.above) };
}

impl Complex {
    ghost use Rattle.cell_complex.specs.declared.fault.FaceFault.{FaceFault};

    /// The most cells of a complex.
    pub const MOST_CELLS: usize = 4096;

    /// The highest dimension of a cell.
    pub const HIGHEST: u8 = 15;

    /// Whether a complex may have cells of these dimensions.
    pub fn fits(dims: &[u8]) -> bool
        ensures { IsTrue result ↔ AreCells dims.now }
    {
        dims.len() <= Complex::MOST_CELLS && dims.iter().all(|&dim| dim <= Complex::HIGHEST)
    }

    /// The complex of cells of these dimensions, with no faces.
    pub fn of_cells(alloc: Global, dims: &[u8]) -> Result<Complex, NoMemory>
        requires { AreCells dims.now }
        ensures { IfOk result (λ c. c ≡ record { dims = dims.now; faces = [] }) }
    {
        Ok(Complex {
            dims: Vec::from_slice(alloc, dims)?,
            signs: IndexMap::new(alloc),
            below: Neighbours::of_cells(alloc, dims.len())?,
            above: Neighbours::of_cells(alloc, dims.len())?,
            guesses: Guesses::of_cells(alloc, dims.len())?,
        })
    }

    /// The complex of cells of these dimensions with these faces, added in order.
    ///
    /// # Errors
    ///
    /// `At` with the place of the first face that [`Complex::add_face`] refuses, and its fault.
    pub fn build(alloc: Global, dims: &[u8], faces: &[Face]) -> Result<Complex, BuildFault>
        requires { AreCells dims.now }
        ensures ok { IfOk result (λ c. c ≡ record { dims = dims.now; faces = faces.now }) }
        ensures accepted { OnOk result (AllAccepted dims.now faces.now) }
        ensures refused { (at : ℕ) (fault : FaceFault) →
            IsErrOf result (BuildFault.At at fault) → IsFirstFault dims.now faces.now at fault }
    {
        let mut complex = Complex::of_cells(alloc, dims)?;
        for face in faces {
            let place = complex.face_count();
            if let Some(fault) = complex.fault_of(*face) {
                return Err(BuildFault::At { face: place, fault });
            }
            complex.append(*face)?;
        }
        Ok(complex)
    }

    /// An equal complex.
    pub fn copy(&self, alloc: Global) -> Result<Complex, NoMemory>
        ensures { IfOk result (λ c. c ≡ self.now) }
    {
        let mut copy = Complex::of_cells(alloc, self.dims())?;
        for place in 0..self.face_count() {
            copy.append(self.face_at(place))?;
        }
        Ok(copy)
    }

    /// The dimensions of the cells.
    pub fn dims(&self) -> &[u8]
        ensures dims { result.now ≡ self.now.dims }
        ensures complex { IsComplex self.now }
    {
        &self.dims
    }

    /// How many faces there are.
    pub fn face_count(&self) -> u32
        ensures count { result ≡ length self.now.faces }
        ensures complex { IsComplex self.now }
    {
        self.signs.len() as u32
    }

    /// The face at the place, in order of insertion.
    pub fn face_at(&self, place: u32) -> Face
        requires { place < length self.now.faces }
        ensures { slice_get self.now.faces place ≡ Some result }
    {
        let (ends, sign) = self.signs.get_index(place as usize).unwrap();
        Face {
            s: ends.0,
            t: ends.1,
            sign: *sign,
        }
    }

    /// The sign of `s` in `t`; none exactly where `s` is no face of `t`.
    pub fn sign(&self, s: u32, t: u32) -> Option<Sign>
        ensures { result ≡ sign self.now s t }
    {
        self.signs.get(&(s, t)).copied()
    }

    /// The same as [`Complex::sign`]; without a look-up where the face stands at the place `guess`.
    pub fn sign_near(&self, guess: usize, s: u32, t: u32) -> Option<Sign>
        ensures { result ≡ sign self.now s t }
    {
        match self.face_near(guess, s, t) {
            Some((_, sign)) => Some(sign),
            None => self.sign(s, t),
        }
    }

    /// The place, in order of insertion, of `s` as a face of `t`; none exactly where it is none.
    pub fn place(&self, s: u32, t: u32) -> Option<u32>
        ensures { result ≡ place self.now s t }
    {
        let place = self.signs.get_index_of(&(s, t))?;
        Some(place as u32)
    }

    /// The same as [`Complex::place`]; without a look-up where the face stands at the place `guess`.
    pub fn place_near(&self, guess: usize, s: u32, t: u32) -> Option<u32>
        ensures { result ≡ place self.now s t }
    {
        match self.face_near(guess, s, t) {
            Some((place, _)) => Some(place),
            None => self.place(s, t),
        }
    }

    /// The place and the sign of `s` in `t`, if it stands at the place `guess`.
    fn face_near(&self, guess: usize, s: u32, t: u32) -> Option<(u32, Sign)>
        ensures place { IfSome result (λ f. place self.now s t ≡ Some f.0) }
        ensures sign { IfSome result (λ f. sign self.now s t ≡ Some f.1) }
    {
        if guess >= self.face_count() as usize {
            return None;
        }
        let face = self.face_at(guess as u32);
        if face.s == s && face.t == t {
            Some((guess as u32, face.sign))
        } else {
            None
        }
    }

    /// The cells that are faces of `t`, rising.
    pub fn faces_of(&self, t: u32) -> &[u32]
        requires { t < length self.now.dims }
        ensures cells { result.now ≡ faces_of self.now t }
        ensures rising { IsStrictlyIncreasing result.now }
    {
        self.below.list(t)
    }

    /// The cells of which `s` is a face, rising.
    pub fn cofaces_of(&self, s: u32) -> &[u32]
        requires { s < length self.now.dims }
        ensures cells { result.now ≡ cofaces_of self.now s }
        ensures rising { IsStrictlyIncreasing result.now }
    {
        self.above.list(s)
    }

    /// The cells of which `s` is a face and that are faces of `u`, rising.
    pub fn middles(&self, s: u32, u: u32) -> Middles<'_>
        requires s_is_cell { s < length self.now.dims }
        requires u_is_cell { u < length self.now.dims }
        ensures { result ≡ middles self.now s u }
    {
        let faces = self.faces_of(u);
        Middles::of(self.cofaces_of(s), faces, self.guesses.end(u, faces.len()))
    }

    /// Why the face does not fit: the first of these that holds. `s` is no cell, `t` is no cell, `t` is not one
    /// dimension above `s`, `s` is a face of `t` already.
    pub fn fault_of(&self, face: Face) -> Option<FaceFault>
        ensures { result ≡ face_fault self.now face }
    {
        let Face { s, t, sign: _ } = face;
        let Some(&dim_s) = self.dims.get(s as usize) else {
            return Some(FaceFault::UnknownCell { id: s });
        };
        let Some(&dim_t) = self.dims.get(t as usize) else {
            return Some(FaceFault::UnknownCell { id: t });
        };
        if dim_t != dim_s + 1 {
            return Some(FaceFault::WrongDims { s, t });
        }
        if self.signs.contains_key(&(s, t)) {
            return Some(FaceFault::TwiceFace { s, t });
        }
        None
    }

    /// Adds the face, as the last; where it is refused, nothing changes.
    ///
    /// # Errors
    ///
    /// The fault that [`Complex::fault_of`] answers; `NoMemory` only where it answers none.
    pub fn add_face(&mut self, face: Face) -> Result<(), AddFault>
        ensures ok { OnOk result (self.new ≡ with_face self.old face) }
        ensures refused { (fault : FaceFault) →
            IsErrOf result (AddFault.Face fault) ↔ (face_fault self.old face ≡ Some fault) }
        ensures err { OnErr result (self.new ≡ self.old) }
    {
        if let Some(fault) = self.fault_of(face) {
            return Err(AddFault::Face(fault));
        }
        self.append(face)?;
        Ok(())
    }

    /// Adds a face that has no fault; without memory nothing changes.
    fn append(&mut self, face: Face) -> Result<(), NoMemory>
        requires { face_fault self.old face ≡ None }
        ensures ok { OnOk result (self.new ≡ with_face self.old face) }
        ensures err { OnErr result (self.new ≡ self.old) }
    {
        let place = self.face_count();
        let before = self.faces_of(face.t).len();
        self.guesses.keep(face.t, before, place);
        keep_face(&mut self.signs, &mut self.below, &mut self.above, face)?;
        Ok(())
    }
}

/// Adds the face to the map and to the lists of its cells; without memory nothing changes.
fn keep_face(
    signs: &mut IndexMap<(u32, u32), Sign>,
    below: &mut Neighbours,
    above: &mut Neighbours,
    face: Face,
) -> Result<(), NoMemory>
    requires s_is_cell { face.s < length (neighbour_lists above.old) }
    requires t_is_cell { face.t < length (neighbour_lists below.old) }
    requires below_rises { IsNonDecreasing (slice_index_or (neighbour_lists below.old) face.t []) }
    requires above_rises { IsNonDecreasing (slice_index_or (neighbour_lists above.old) face.s []) }
    requires absent { get (λ p q. nat_eq p.0 q.0 && nat_eq p.1 q.1) signs.old (face.s, face.t) ≡ None }
    ensures signs { OnOk result (signs.new.entries ≡ signs.old.entries ++ ((face.s, face.t), face.sign) ∷ []) }
    ensures below { OnOk result (neighbour_lists below.new ≡ slice_set (neighbour_lists below.old) face.t
        (with_cell face.s (slice_index_or (neighbour_lists below.old) face.t []))) }
    ensures above { OnOk result (neighbour_lists above.new ≡ slice_set (neighbour_lists above.old) face.s
        (with_cell face.t (slice_index_or (neighbour_lists above.old) face.s []))) }
    ensures signs_err { OnErr result (signs.new.entries ≡ signs.old.entries) }
    ensures below_err { OnErr result (neighbour_lists below.new ≡ neighbour_lists below.old) }
    ensures above_err { OnErr result (neighbour_lists above.new ≡ neighbour_lists above.old) }
{
    below.make_room(face.t)?;
    above.make_room(face.s)?;
    signs.insert((face.s, face.t), face.sign)?;
    below.insert(face.t, face.s);
    above.insert(face.s, face.t);
    Ok(())
}
