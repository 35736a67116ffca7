ghost use Rattle.std.specs.Prelude.{◌≡◌, ◌<◌, Some, slice_get, length, IfOk, MatchOption};
ghost use Rattle.cochain_vec.specs.Cohomology.{IsCocycle};
ghost use Rattle.cochain_vec.specs.Complexes.{CellularComplex, IsCochain};
ghost use Rattle.block_complexes.specs.BlockComplexes.{IsBlockComplex};
ghost use Rattle.block_complexes.specs.Cochains.{complex_of};
ghost use Rattle.block_sparse.specs.StoredBlocks.{complex_in};
ghost use Rattle.equivalence_laws.specs.Equivalences.{graded_matrix};
ghost use Rattle.equivalences.specs.Between.{IsEquivalenceOf};
ghost use Rattle.cocycle_bases.specs.Answers.{Answers};
ghost use Rattle.cocycle_bases.specs.Classes.{IsFirstOpen, homotopy_below};

use crate::open_cells::first_open;
use block_sparse::Blocks;
use cochain_vec::Cochain;
use dense_blocks::{Block, Listed, Scalars, apply};
use equivalences::Equivalence;
use std::alloc::{AllocError as NoMemory, Global};

/// The class of a cochain, if it has one.
#[derive(Debug, Drop)]
pub enum Class {
    /// It is not a cocycle: its coboundary is not zero at the cell `t`, the first such.
    NotCocycle { t: u32 },
    /// It is a cocycle: the combination of a basis by `coords`, plus the coboundary of `primitive`, a cochain of the
    /// degree below; in degree 0, which has none below, `primitive` is empty.
    Class { coords: Vec<u8>, primitive: Vec<u8> },
}

/// The class of a cochain of `base`, by an equivalence of it and a complex without a coboundary: its image under pi has
/// its coordinates in the basis that [`bases`] gives, and its image under h is the primitive.
///
/// Takes what [`Blocks::apply`] takes and a look at each live cell and each coordinate of the coboundary; where that is
/// zero, a product of scalars and a sum for each entry of pi and of h. Memory: what is given back, and the coboundary.
/// Fails only where memory does.
///
/// [`bases`]: crate::bases
pub fn classify<F: Scalars>(
    alloc: Global,
    f: &F,
    base: &Blocks,
    eq: &Equivalence,
    z: &Cochain,
) -> Result<Class, NoMemory>
    requires base { IsBlockComplex (F.ops f.now) (complex_in base.now) }
    requires equivalence { (D : CellularComplex)
        × IsEquivalenceOf (F.ops f.now) (complex_of (complex_in base.now)) D eq.now }
    requires cochain { IsCochain (F.ops f.now) (complex_of (complex_in base.now)) z.now.degree z.now.values.items }
    requires degree { z.now.degree < 16 }
    ensures { IfOk result (Answers (F.ops f.now) (complex_of (complex_in base.now)) eq.now z.now.degree
        z.now.values.items) }
{
    let found = open_cell(alloc, f, base, z)?;
    match found {
        Some(t) => Ok(Class::NotCocycle { t }),
        None => class_of(alloc, f, base, eq, z),
    }
}

/// The first cell at which the coboundary of a cochain is not zero; none exactly where it is a cocycle.
fn open_cell<F: Scalars>(
    alloc: Global,
    f: &F,
    base: &Blocks,
    z: &Cochain,
) -> Result<Option<u32>, NoMemory>
    requires base { IsBlockComplex (F.ops f.now) (complex_in base.now) }
    requires cochain { IsCochain (F.ops f.now) (complex_of (complex_in base.now)) z.now.degree z.now.values.items }
    requires degree { z.now.degree < 16 }
    ensures { IfOk result (λ found. MatchOption found
        (IsCocycle (F.ops f.now) (complex_of (complex_in base.now)) z.now.degree z.now.values.items)
        (λ t. IsFirstOpen (F.ops f.now) (complex_of (complex_in base.now)) z.now.degree z.now.values.items t)) }
{
    let live = base.live();
    let image = base.apply(alloc, f, z.degree, &z.values)?;
    let found = first_open(live, z.degree + 1, &image);
    Ok(found)
}

/// The class of a cocycle.
fn class_of<F: Scalars>(
    alloc: Global,
    f: &F,
    base: &Blocks,
    eq: &Equivalence,
    z: &Cochain,
) -> Result<Class, NoMemory>
    requires base { IsBlockComplex (F.ops f.now) (complex_in base.now) }
    requires equivalence { (D : CellularComplex)
        × IsEquivalenceOf (F.ops f.now) (complex_of (complex_in base.now)) D eq.now }
    requires cocycle { IsCocycle (F.ops f.now) (complex_of (complex_in base.now)) z.now.degree z.now.values.items }
    requires degree { z.now.degree < 16 }
    ensures { IfOk result (Answers (F.ops f.now) (complex_of (complex_in base.now)) eq.now z.now.degree
        z.now.values.items) }
{
    let pi = member(&eq.pi, z.degree as usize);
    let coords = apply(alloc, f, pi, &z.values)?;
    let primitive = primitive_of(alloc, f, base, eq, z)?;
    Ok(Class::Class { coords, primitive })
}

/// The image of a cochain under h; empty in degree 0.
fn primitive_of<F: Scalars>(
    alloc: Global,
    f: &F,
    base: &Blocks,
    eq: &Equivalence,
    z: &Cochain,
) -> Result<Vec<u8>, NoMemory>
    requires equivalence { (D : CellularComplex)
        × IsEquivalenceOf (F.ops f.now) (complex_of (complex_in base.now)) D eq.now }
    requires cochain { IsCochain (F.ops f.now) (complex_of (complex_in base.now)) z.now.degree z.now.values.items }
    requires degree { z.now.degree < 16 }
    ensures { IfOk result (λ u. u.items
        ≡ homotopy_below (F.ops f.now) (graded_matrix eq.now.h) z.now.degree z.now.values.items) }
{
    if z.degree == 0 {
        return Ok(Vec::new(alloc));
    }
    let h = member(&eq.h, z.degree as usize - 1);
    let primitive = apply(alloc, f, h, &z.values)?;
    Ok(primitive)
}

/// The block of degree `k`.
fn member(blocks: &Listed<Block>, k: usize) -> &Block
    requires { k < length blocks.now }
    ensures { slice_get blocks.now k ≡ Some result.now }
{
    &blocks.as_slice()[k]
}
