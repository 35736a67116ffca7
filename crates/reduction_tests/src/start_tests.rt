//! A start complex, worked by hand over the field of three elements: minus is 2.
use crate::samples::has_block;
use block_sparse::Blocks;
use cell_complex::Sign::{Minus, Plus};
use cell_complex::{Complex, Face, Sign};
use coboundary::full;
use dense_blocks::Block;
use field_table::Field;
use sheaf_data::{Draft, stalks_fit};
use std::alloc::Global;
use std::process::Abort;
use std::test::Fail;

fn face(s: u32, t: u32, sign: Sign) -> Face {
    Face { s, t, sign }
}

/// The faces of the edges 2 and 3 between the vertices 0 and 1.
fn faces() -> [Face; 4] {
    [
        face(0, 2, Minus),
        face(1, 2, Plus),
        face(0, 3, Plus),
        face(1, 3, Minus),
    ]
}

/// The edge 2 has no stalk; all restrictions are zero.
fn draft(rt: &impl Abort, alloc: Global) -> Result<Draft<Field>, Fail> {
    assert!(rt; Complex::fits(&[0, 0, 1, 1]));
    let complex = Complex::build(alloc, &[0, 0, 1, 1], &faces())?;
    assert!(rt; stalks_fit(complex.dims(), &[1, 2, 0, 1]));
    Ok(Draft::new(alloc, complex, Field::Three, &[1, 2, 0, 1])?)
}

/// The start complex of a draft that is a sheaf.
fn start(rt: &impl Abort, alloc: Global, draft: Draft<Field>) -> Result<Blocks, Fail> {
    let sheaf = draft.seal().ok().expect(rt, "a sheaf");
    Ok(full(alloc, &sheaf)?)
}

#[test]
fn leaves_out_what_is_zero(rt: HostRuntime) -> Result<(), Fail> {
    let mut draft = draft(&rt, rt.alloc())?;
    // From 1 to 3.
    let block = Block::of(rt.alloc(), 1, 2, &[1, 2])?;
    assert!(rt; draft.takes(3, &block));
    draft.put(3, block);
    let b = start(&rt, rt.alloc(), draft)?;
    assert!(rt; b.live() == [(0, 0, 1), (1, 0, 2), (3, 1, 1)].as_slice());
    assert!(rt; b.row(3) == [1].as_slice() && has_block(&b, 1, 3, &[2, 1]));
    Ok(())
}
