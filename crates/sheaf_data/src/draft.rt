ghost use Rattle.std.specs.Prelude.{◌≡◌, ℕ, ◌<◌, ◌↔◌, ◌≤◌, IsTrue, IfOk, IfSome, length, slice_get, slice_set, sum};
ghost use Rattle.dense_blocks.specs.Vectors.{AllScalars};
ghost use Rattle.sheaf_data.specs.Drafts.{AreStalks, HasShape, IsZero, AreZeroBlocks, IsDraft};

use cell_complex::{Complex, Face};
use dense_blocks::{Block, Listed, Scalars, all_scalars};
use std::alloc::{AllocError as NoMemory, Global};
use std::marker::Model;

/// A complex, with the size of the stalk of each cell and a block for each face: what is to become a sheaf.
///
/// Each stalk has at most 16 coordinates, and all together have at most 4,096. The blocks stand in the order of the
/// faces and go from stalk to stalk; their entries are scalars of the field. Nothing is said of signs or of products of
/// blocks.
#[derive(Drop)]
pub struct Draft<F: Scalars> {
    /// The cells and the faces.
    pub complex: Complex,
    /// The field of the entries.
    pub field: F,
    /// The number of coordinates of each cell's stalk.
    pub stalks: Listed<u8>,
    /// The restriction of each face, in the order of the faces.
    pub blocks: Listed<Block>,
}

impl<F: Scalars> Model for Draft<F> {
    ghost use Rattle.sheaf_data.specs.Sheaves.{SheafData};
    ghost use Rattle.sheaf_data.specs.Drafts.{IsDraft};

    ghost Value = { SheafData F };

    ghost view = { λ d. record { complex = d.complex; field = d.field; stalks = d.stalks; blocks = d.blocks } };

    ghost invariant = { λ d. IsDraft (F.ops d.field) d.complex d.stalks d.blocks };
}

impl<F: Scalars> Draft<F> {
    /// The draft of this complex over this field, with stalks of these sizes and zero blocks.
    pub fn new(
        alloc: Global,
        complex: Complex,
        field: F,
        stalks: &[u8],
    ) -> Result<Draft<F>, NoMemory>
        requires { AreStalks complex.dims stalks.now }
        ensures complex { IfOk result (λ d. d.complex ≡ complex) }
        ensures field { IfOk result (λ d. d.field ≡ field) }
        ensures stalks { IfOk result (λ d. d.stalks ≡ stalks.now) }
        ensures blocks { IfOk result (λ d. AreZeroBlocks complex.faces stalks.now d.blocks) }
    {
        let blocks = zero_blocks(alloc, &complex, stalks)?;
        let stalks = Vec::from_slice(alloc, stalks)?;
        Ok(Draft {
            complex,
            field,
            stalks: Listed::of(stalks),
            blocks: Listed::of(blocks),
        })
    }

    /// Whether the block may stand at `place`: there is a face, the shape is right, and the entries are scalars.
    pub fn takes(&self, place: u32, b: &Block) -> bool
        ensures { IsTrue result ↔ ((place < length self.now.complex.faces)
            × IfSome (slice_get self.now.complex.faces place) (λ f. HasShape self.now.stalks f b.now)
            × AllScalars (F.ops self.now.field) b.now.entries) }
    {
        place < self.complex.face_count()
            && has_shape(self.stalks.as_slice(), self.complex.face_at(place), b)
            && all_scalars(&self.field, b.entries.as_slice())
    }

    /// Puts the block in place of that of the face at `place`; takes no memory.
    pub fn put(&mut self, place: u32, b: Block)
        requires face { place < length self.old.complex.faces }
        requires shape { IfSome (slice_get self.old.complex.faces place) (λ f. HasShape self.old.stalks f b) }
        requires scalars { AllScalars (F.ops self.old.field) b.entries }
        ensures { self.new ≡ record self.old { blocks = slice_set self.old.blocks place b } }
    {
        self.blocks.set(place as usize, b);
    }

    /// Puts these stalks and blocks in place of all that were there; takes no memory.
    pub(crate) fn replace(&mut self, stalks: Listed<u8>, blocks: Listed<Block>)
        requires { IsDraft (F.ops self.old.field) self.old.complex stalks blocks }
        ensures { self.new ≡ record self.old { stalks = stalks; blocks = blocks } }
    {
        self.stalks = stalks;
        self.blocks = blocks;
    }

    /// An equal draft.
    pub fn copy(&self, alloc: Global) -> Result<Draft<F>, NoMemory>
        ensures { IfOk result (λ d. d ≡ self.now) }
    {
        let complex = self.complex.copy(alloc)?;
        let stalks = Vec::from_slice(alloc, self.stalks.as_slice())?;
        let blocks = copy_blocks(alloc, self.blocks.as_slice())?;
        Ok(Draft {
            complex,
            field: self.field,
            stalks: Listed::of(stalks),
            blocks: Listed::of(blocks),
        })
    }
}

/// Equal blocks, in order.
pub fn copy_blocks(alloc: Global, blocks: &[Block]) -> Result<Vec<Block>, NoMemory>
    ensures { IfOk result (λ v. v.items ≡ blocks.now) }
{
    let mut copies = Vec::with_capacity(alloc, blocks.len())?;
    for block in blocks {
        copies.push(block.copy(alloc)?)?;
    }
    Ok(copies)
}

/// Whether the block goes from the stalk of the face's cell `s` to that of its cell `t`.
fn has_shape(stalks: &[u8], face: Face, b: &Block) -> bool
    requires s_has_stalk { face.s < length stalks.now }
    requires t_has_stalk { face.t < length stalks.now }
    ensures { IsTrue result ↔ HasShape stalks.now face b.now }
{
    b.cols == u32::from(stalks[face.s as usize]) && b.rows == u32::from(stalks[face.t as usize])
}

/// The zero block of a face.
fn zero_block(alloc: Global, stalks: &[u8], face: Face) -> Result<Block, NoMemory>
    requires s_has_stalk { face.s < length stalks.now }
    requires t_has_stalk { face.t < length stalks.now }
    ensures shape { IfOk result (HasShape stalks.now face) }
    ensures zero { IfOk result IsZero }
{
    Block::zero(
        alloc,
        u32::from(stalks[face.t as usize]),
        u32::from(stalks[face.s as usize]),
    )
}

/// The zero blocks of the faces, in order.
fn zero_blocks(alloc: Global, c: &Complex, stalks: &[u8]) -> Result<Vec<Block>, NoMemory>
    requires { length stalks.now ≡ length c.now.dims }
    ensures { IfOk result (λ v. AreZeroBlocks c.now.faces stalks.now v.items) }
{
    let count = c.face_count();
    let mut blocks = Vec::with_capacity(alloc, count as usize)?;
    for place in 0..count {
        blocks.push(zero_block(alloc, stalks, c.face_at(place))?)?;
    }
    Ok(blocks)
}
