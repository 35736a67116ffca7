//! The four equations on each unit vector of the boundary of a tetrahedron, over the field of five elements. Both sides
//! are computed.
ghost use Rattle.std.specs.Prelude.{◌<◌};

use crate::samples::{TETRAHEDRON, maps, reduced};
use block_sparse::Blocks;
use dense_blocks::{Block, Listed, all_scalars, apply, zeros};
use equivalences::Equivalence;
use field_table::Field;
use pair_commit::Slot;
use std::alloc::{AllocError as NoMemory, Global};
use std::process::Abort;

/// The coboundary of a cochain of degree `k`.
fn coboundary(
    rt: &impl Abort,
    alloc: Global,
    b: &Blocks,
    k: u8,
    z: &[u8],
) -> Result<Vec<u8>, NoMemory> {
    assert!(rt; b.is_over(&Field::Five));
    assert!(rt; z.len() == b.coordinates(k) && all_scalars(&Field::Five, z));
    b.apply(alloc, &Field::Five, k, z)
}

fn block_image(rt: &impl Abort, alloc: Global, a: &Block, z: &[u8]) -> Result<Vec<u8>, NoMemory> {
    assert!(rt; z.len() == a.cols as usize);
    assert!(rt; all_scalars(&Field::Five, a.entries.as_slice()) && all_scalars(&Field::Five, z));
    apply(alloc, &Field::Five, a, z)
}

/// What member `k` makes of the vector.
fn image(
    rt: &impl Abort,
    alloc: Global,
    maps: &Listed<Block>,
    k: usize,
    z: &[u8],
) -> Result<Vec<u8>, NoMemory> {
    match maps.as_slice().get(k) {
        Some(a) => block_image(rt, alloc, a, z),
        None => panic!(rt; "no such degree"),
    }
}

/// What member `k` makes of the coboundary.
fn image_of_coboundary(
    rt: &impl Abort,
    alloc: Global,
    maps: &Listed<Block>,
    k: usize,
    b: &Blocks,
    degree: u8,
    z: &[u8],
) -> Result<Vec<u8>, NoMemory> {
    let dz = coboundary(rt, alloc, b, degree, z)?;
    image(rt, alloc, maps, k, &dz)
}

/// The coboundary of what the member of the degree makes of the vector.
fn coboundary_of_image(
    rt: &impl Abort,
    alloc: Global,
    b: &Blocks,
    maps: &Listed<Block>,
    k: u8,
    z: &[u8],
) -> Result<Vec<u8>, NoMemory> {
    let mapped = image(rt, alloc, maps, usize::from(k), z)?;
    coboundary(rt, alloc, b, k, &mapped)
}

/// What one member of the degree makes of what the other makes of the vector.
fn image_of_image(
    rt: &impl Abort,
    alloc: Global,
    second: &Listed<Block>,
    first: &Listed<Block>,
    k: u8,
    z: &[u8],
) -> Result<Vec<u8>, NoMemory> {
    let mapped = image(rt, alloc, first, usize::from(k), z)?;
    image(rt, alloc, second, usize::from(k), &mapped)
}

/// The coboundary of h z; zero in degree 0.
fn d_h(
    rt: &impl Abort,
    alloc: Global,
    b: &Blocks,
    h: &Listed<Block>,
    k: u8,
    z: &[u8],
) -> Result<Vec<u8>, NoMemory> {
    match k.checked_sub(1) {
        Some(below) => coboundary_of_image(rt, alloc, b, h, below, z),
        None => zeros(alloc, z.len()),
    }
}

/// The entry, a scalar.
fn scalar(rt: &impl Abort, v: &[u8], i: usize) -> u8
    ensures { result < 5 }
{
    match v.get(i) {
        Some(entry) if *entry < 5 => *entry,
        _ => panic!(rt; "no scalar"),
    }
}

/// Whether the vector is the sum of three of its size.
fn is_sum(rt: &impl Abort, z: &[u8], a: &[u8], b: &[u8], c: &[u8]) -> bool {
    for i in 0..z.len() {
        if (scalar(rt, a, i) + scalar(rt, b, i) + scalar(rt, c, i)) % 5 != z[i] {
            return false;
        }
    }
    a.len() == z.len() && b.len() == z.len() && c.len() == z.len()
}

/// pi d = d' pi
fn pi_commutes(
    rt: &impl Abort,
    alloc: Global,
    slot: &Slot<Field>,
    pi: &Listed<Block>,
    k: u8,
    z: &[u8],
) -> Result<bool, NoMemory> {
    let left = image_of_coboundary(rt, alloc, pi, usize::from(k) + 1, slot.base(), k, z)?;
    let right = coboundary_of_image(rt, alloc, slot.now(), pi, k, z)?;
    Ok(left == right)
}

/// d iota = iota d'
fn iota_commutes(
    rt: &impl Abort,
    alloc: Global,
    slot: &Slot<Field>,
    iota: &Listed<Block>,
    k: u8,
    w: &[u8],
) -> Result<bool, NoMemory> {
    let left = coboundary_of_image(rt, alloc, slot.base(), iota, k, w)?;
    let right = image_of_coboundary(rt, alloc, iota, usize::from(k) + 1, slot.now(), k, w)?;
    Ok(left == right)
}

/// z = iota pi z + (d h z + h d z), where the parts are at hand but for the last.
fn is_sum_with_h_d(
    rt: &impl Abort,
    alloc: Global,
    b: &Blocks,
    h: &Listed<Block>,
    k: u8,
    z: &[u8],
    parts: (&[u8], &[u8]),
) -> Result<bool, NoMemory> {
    let h_d = image_of_coboundary(rt, alloc, h, usize::from(k), b, k, z)?;
    Ok(is_sum(rt, z, parts.0, parts.1, &h_d))
}

/// 1 = iota pi + (d h + h d)
fn is_homotopic(
    rt: &impl Abort,
    alloc: Global,
    b: &Blocks,
    e: &Equivalence,
    k: u8,
    z: &[u8],
) -> Result<bool, NoMemory> {
    let iota_pi = image_of_image(rt, alloc, &e.iota, &e.pi, k, z)?;
    let d_h = d_h(rt, alloc, b, &e.h, k, z)?;
    is_sum_with_h_d(
        rt,
        alloc,
        b,
        &e.h,
        k,
        z,
        (iota_pi.as_slice(), d_h.as_slice()),
    )
}

/// The unit vector at `i`.
fn unit(alloc: Global, n: usize, i: usize) -> Result<Vec<u8>, NoMemory> {
    let mut v = zeros(alloc, n)?;
    if i < v.len() {
        v[i] = 1;
    }
    Ok(v)
}

/// The equations on unit vector `i` of degree `k` of the start.
fn check_start(
    rt: &impl Abort,
    alloc: Global,
    slot: &Slot<Field>,
    e: &Equivalence,
    k: u8,
    i: usize,
) -> Result<(), NoMemory> {
    let z = unit(alloc, slot.base().coordinates(k), i)?;
    assert!(rt; pi_commutes(rt, alloc, slot, &e.pi, k, &z)?);
    assert!(rt; is_homotopic(rt, alloc, slot.base(), e, k, &z)?);
    Ok(())
}

/// The equations on unit vector `i` of degree `k` of what is left.
fn check_rest(
    rt: &impl Abort,
    alloc: Global,
    slot: &Slot<Field>,
    e: &Equivalence,
    k: u8,
    i: usize,
) -> Result<(), NoMemory> {
    let w = unit(alloc, slot.now().coordinates(k), i)?;
    assert!(rt; iota_commutes(rt, alloc, slot, &e.iota, k, &w)?);
    assert!(rt; image_of_image(rt, alloc, &e.pi, &e.iota, k, &w)? == w);
    Ok(())
}

/// On each unit vector of degree `k`.
fn check_all(
    rt: &impl Abort,
    alloc: Global,
    slot: &Slot<Field>,
    e: &Equivalence,
    k: u8,
) -> Result<(), NoMemory> {
    for i in 0..slot.base().coordinates(k) {
        check_start(rt, alloc, slot, e, k, i)?;
        check_rest(rt, alloc, slot, e, k, i)?;
    }
    Ok(())
}

/// The equations where so many pairs are removed.
fn check(rt: &impl Abort, alloc: Global, count: u32) -> Result<(), NoMemory> {
    let slot = reduced(rt, alloc, TETRAHEDRON, count)?;
    let e = maps(alloc, &slot)?;
    for k in 0..3 {
        check_all(rt, alloc, &slot, &e, k)?;
    }
    Ok(())
}

/// Two pairs leave a coboundary in both degrees, and after four there is a homotopy in both.
#[test]
fn meets_the_equations(rt: HostRuntime) -> Result<(), NoMemory> {
    check(&rt, rt.alloc(), 2)?;
    check(&rt, rt.alloc(), 4)
}
