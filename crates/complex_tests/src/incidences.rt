//! Incidences above edges, worked by hand.
use crate::complexes::built;
use cell_complex::Sign::{Minus, Plus};
use cell_complex::{Face, Sign};
use incidence_check::Incidence::Signs;
use incidence_check::check;
use std::test::Fail;

fn face(s: u32, t: u32, sign: Sign) -> Face {
    Face { s, t, sign }
}

/// The faces of cells of dimensions 2, 3, 3 and 4, with this sign of the first.
fn faces(sign: Sign) -> [Face; 4] {
    [
        face(0, 1, sign),
        face(0, 2, Plus),
        face(1, 3, Plus),
        face(2, 3, Minus),
    ]
}

#[test]
fn passes_opposite_products(rt: HostRuntime) -> Result<(), Fail> {
    let complex = built(&rt, rt.alloc(), &[2, 3, 3, 4], &faces(Plus))?;
    assert!(rt; check(&complex) == Ok(()));
    Ok(())
}

#[test]
fn refuses_equal_products(rt: HostRuntime) -> Result<(), Fail> {
    let complex = built(&rt, rt.alloc(), &[2, 3, 3, 4], &faces(Minus))?;
    assert!(rt; check(&complex) == Err(Signs { s: 0, u: 3 }));
    Ok(())
}
