ghost use Rattle.std.specs.Prelude.{◌≡◌, ◌<◌, ◌≤◌, ◌+◌, ℕ, None, [], ◌∷◌, ◌++◌};
ghost use Rattle.std.specs.Prelude.{length, slice_get, slice_index, IfOk, OnOk, OnErr, IfSome};
ghost use Rattle.dense_blocks.specs.Vectors.{AllScalars};
ghost use Rattle.dense_blocks.specs.Blocks.{matrix_of};
ghost use Rattle.dense_blocks.specs.BlockFacts.{IsBlock};
ghost use Rattle.block_sparse.specs.StoredBlocks.{FitsPair, block_at};
ghost use Rattle.block_sparse.specs.Lists.{with_block};
ghost use Rattle.cell_complex.specs.Invariants.{IsComplex};
ghost use Rattle.sheaf_data.specs.Betti.{signed_matrix};
ghost use Rattle.sheaf_data.specs.Arrows.{numbered_cells};
ghost use Rattle.coboundary.specs.Start.{with_stalks};
ghost use Rattle.coboundary.specs.Put.{AreFirstPut, IsStart};

use block_sparse::Blocks;
use cell_complex::{Face, Sign};
use dense_blocks::{Block, Scalars, minus};
use sheaf_data::{Draft, Sheaf};
use std::alloc::{AllocError as NoMemory, Global};

/// The start complex of a sheaf: its live cells are the cells with a stalk that is not zero, each with its dimension as
/// its degree and the size of its stalk; from `s` to `t` goes the sign times the restriction, where `s` is a face of
/// `t`, and zero otherwise; no block has its flag set.
///
/// Fails only where memory does.
pub fn full<F: Scalars>(alloc: Global, sheaf: &Sheaf<F>) -> Result<Blocks, NoMemory>
    ensures { IfOk result (IsStart (F.ops sheaf.now.field) sheaf.now.complex sheaf.now.stalks sheaf.now.blocks) }
{
    let draft = sheaf.draft();
    let live = live_cells(alloc, draft.complex.dims(), draft.stalks.as_slice())?;
    let mut blocks = Blocks::of_cells(alloc, &live)?;
    for place in 0..draft.complex.face_count() {
        put_face(alloc, draft, place, &mut blocks)?;
    }
    Ok(blocks)
}

/// Puts the block of the face at `place`, its sign times its restriction, where both cells are live.
fn put_face<F: Scalars>(
    alloc: Global,
    draft: &Draft<F>,
    place: u32,
    blocks: &mut Blocks,
) -> Result<(), NoMemory>
    requires complex { IsComplex draft.now.complex }
    requires face { place < length draft.now.complex.faces }
    requires live { blocks.old.live ≡ with_stalks (numbered_cells 0 draft.now.complex.dims draft.now.stalks) }
    requires first { AreFirstPut (F.ops draft.now.field) draft.now.complex draft.now.blocks place
        (block_at blocks.old) }
    ensures live { OnOk result (blocks.new.live ≡ blocks.old.live) }
    ensures next { OnOk result (AreFirstPut (F.ops draft.now.field) draft.now.complex draft.now.blocks (place + 1)
        (block_at blocks.new)) }
{
    let face = draft.complex.face_at(place);
    let restriction = &draft.blocks.as_slice()[place as usize];
    if restriction.entries.len() == 0 {
        return Ok(());
    }
    let block = signed(alloc, &draft.field, face.sign, restriction)?;
    put(blocks, face, block)
}

/// Puts the block of a face.
fn put(blocks: &mut Blocks, face: Face, b: Block) -> Result<(), NoMemory>
    requires { FitsPair blocks.old.live face.s face.t b }
    ensures live { OnOk result (blocks.new.live ≡ blocks.old.live) }
    ensures blocks { OnOk result ((s t : ℕ) → block_at blocks.new s t
        ≡ with_block (block_at blocks.old) face.s face.t (matrix_of b) s t) }
{
    match blocks.set(face.s, face.t, b) {
        Ok(()) => Ok(()),
        Err((_, fault)) => Err(fault),
    }
}

/// Adds a cell of this dimension, if its stalk is not zero.
fn push_live(live: &mut Vec<(u32, u8, u8)>, cell: u32, dim: u8, size: u8) -> Result<(), NoMemory>
    ensures { OnOk result (live.new.items ≡
        live.old.items ++ with_stalks (record { cell = cell; degree = dim; size = size } ∷ [])) }
{
    if size == 0 {
        Ok(())
    } else {
        live.push((cell, dim, size))?;
        Ok(())
    }
}

/// The cells with a stalk that is not zero, each with its dimension and the size of its stalk.
fn live_cells(alloc: Global, dims: &[u8], stalks: &[u8]) -> Result<Vec<(u32, u8, u8)>, NoMemory>
    requires one_each { length stalks.now ≡ length dims.now }
    requires few { length dims.now ≤ 4096 }
    ensures { IfOk result (λ live. live.items ≡ with_stalks (numbered_cells 0 dims.now stalks.now)) }
{
    let mut live = Vec::new(alloc);
    for (cell, dim) in dims.iter().enumerate() {
        push_live(&mut live, cell as u32, *dim, stalks[cell])?;
    }
    Ok(live)
}

/// The sign times the block.
fn signed<F: Scalars>(alloc: Global, f: &F, sign: Sign, b: &Block) -> Result<Block, NoMemory>
    requires { AllScalars (F.ops f.now) b.now.entries }
    ensures { IfOk result (λ c. IsBlock c b.now.rows b.now.cols (signed_matrix (F.ops f.now) sign (matrix_of b.now))) }
{
    match sign {
        Sign::Plus => Ok(b.copy(alloc)?),
        Sign::Minus => Ok(minus(alloc, f, b)?),
    }
}
