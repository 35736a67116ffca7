//! The fields of the table.
use dense_blocks::{Scalars, add_scaled, all_scalars, scale, zeros};
use field_table::Field;
use std::alloc::AllocError as NoMemory;
use std::process::Abort;

// A sum, the negative of b, a product and the inverse of a, of any field.
fn computed<F: Scalars>(rt: &impl Abort, f: &F, a: u8, b: u8) -> [u8; 4] {
    assert!(rt; u32::from(a) < f.order() && u32::from(b) < f.order() && a != 0);
    [f.add(a, b), f.neg(b), f.mul(a, b), f.inv(a)]
}

#[test]
fn computes(rt: HostRuntime) {
    assert!(rt; computed(&rt, &Field::Thirteen, 5, 9) == [1, 4, 6, 8]);
    assert!(rt; computed(&rt, &Field::ThirtyOne, 30, 30) == [29, 1, 1, 30]);
}

// Twice the row added to the target, and four times that.
fn changed<F: Scalars>(rt: &impl Abort, f: &F, target: &mut [u8], row: &[u8]) {
    assert!(rt; f.order() > 4 && target.len() == row.len());
    assert!(rt; all_scalars(f, target) && all_scalars(f, row));
    add_scaled(f, target, 2, row);
    scale(f, target, 4);
}

#[test]
fn changes_rows(rt: HostRuntime) -> Result<(), NoMemory> {
    let mut row = zeros(rt.alloc(), 3)?;
    changed(&rt, &Field::Five, row.as_mut_slice(), &[1, 0, 4]);
    assert!(rt; row.as_slice() == [3, 0, 2].as_slice());
    Ok(())
}

fn square_of(rt: &impl Abort, f: Field, v: &[u8]) -> u8 {
    assert!(rt; all_scalars(&f, v));
    f.dot(v, v)
}

#[test]
fn adds_many_products(rt: HostRuntime) -> Result<(), NoMemory> {
    // 30 * 30 = 1 modulo 31, and 65,540 = 31 * 2,114 + 6.
    let v = vec![in rt.alloc(); 30; 65_540]?;
    assert!(rt; square_of(&rt, Field::ThirtyOne, v.as_slice()) == 6);
    Ok(())
}
