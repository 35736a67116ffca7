//! Drafts and sheaves are copied.
use cell_complex::Sign::{Minus, Plus};
use cell_complex::{Complex, Face, Sign};
use dense_blocks::Two;
use sheaf_data::{Draft, Sheaf, stalks_fit};
use std::alloc::{AllocError as NoMemory, Global};
use std::process::Abort;
use std::test::Fail;

/// The draft with these cells, faces and stalks; each restriction is zero.
fn zero(
    rt: &impl Abort,
    alloc: Global,
    dims: &[u8],
    faces: &[Face],
    stalks: &[u8],
) -> Result<Draft<Two>, Fail> {
    assert!(rt; Complex::fits(dims));
    let complex = Complex::build(alloc, dims, faces)?;
    assert!(rt; stalks_fit(complex.dims(), stalks));
    Ok(Draft::new(alloc, complex, Two, stalks)?)
}

fn face(s: u32, t: u32, sign: Sign) -> Face {
    Face { s, t, sign }
}

/// The draft over the edge 2 between the vertices 0 and 1.
fn edge(rt: &impl Abort, alloc: Global) -> Result<Draft<Two>, Fail> {
    let faces = [face(0, 2, Minus), face(1, 2, Plus)];
    zero(rt, alloc, &[0, 0, 1], &faces, &[1, 2, 3])
}

fn is_edge(draft: &Draft<Two>) -> bool {
    draft.complex.dims() == [0, 0, 1].as_slice()
        && draft.stalks.as_slice() == [1, 2, 3].as_slice()
        && draft.blocks.as_slice().len() == 2
}

#[test]
fn copies_drafts(rt: HostRuntime) -> Result<(), Fail> {
    let draft = edge(&rt, rt.alloc())?;
    let copy = draft.copy(rt.alloc())?;
    assert!(rt; is_edge(&copy));
    Ok(())
}

fn sealed(draft: Draft<Two>) -> Option<Sheaf<Two>> {
    match draft.seal() {
        Ok(sheaf) => Some(sheaf),
        Err(_) => None,
    }
}

fn is_copied(alloc: Global, sheaf: &Sheaf<Two>) -> Result<bool, NoMemory> {
    let copy = sheaf.copy(alloc)?;
    Ok(is_edge(copy.draft()))
}

#[test]
fn copies_sheaves(rt: HostRuntime) -> Result<(), Fail> {
    let draft = edge(&rt, rt.alloc())?;
    let sheaf = sealed(draft).expect(&rt, "no squares");
    assert!(rt; is_copied(rt.alloc(), &sheaf)?);
    Ok(())
}
