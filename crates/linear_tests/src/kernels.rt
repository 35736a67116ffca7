//! The calls on slices of the fields of the table, beside those that go entry by entry.
use crate::by_entries::ByEntries;
use dense_blocks::{Scalars, all_scalars};
use field_table::Field;
use std::alloc::{AllocError as NoMemory, Global};
use std::process::Abort;

// Five entries plus the combination of nine rows: two times four, and one more.
fn combine<F: Scalars>(
    rt: &impl Abort,
    f: &F,
    target: &mut [u8],
    coefficients: &[u8],
    rows: &[u8],
) {
    assert!(rt; target.len() == 5 && coefficients.len() == 9 && rows.len() == 45);
    assert!(rt; all_scalars(f, target) && all_scalars(f, coefficients) && all_scalars(f, rows));
    f.add_combination(target, coefficients, rows);
}

// So many scalars of an order: n, n + 1, n + 4, n + 9 and so on, but 0 at those before `zeros`.
fn scalars(alloc: Global, order: u32, n: u32, count: u32, zeros: u32) -> Result<Vec<u8>, NoMemory> {
    let mut scalars = Vec::new(alloc);
    for i in 0..count {
        let square = n.wrapping_add(i.wrapping_mul(i));
        let scalar = square.checked_rem(order).unwrap_or(0);
        scalars.push(if i < zeros { 0 } else { (scalar & 255) as u8 })?;
    }
    Ok(scalars)
}

// What both forms give.
fn combinations(
    rt: &impl Abort,
    alloc: Global,
    order: u32,
    zeros: u32,
) -> Result<(Vec<u8>, Vec<u8>), NoMemory> {
    let field = Field::of(order).expect(rt, "an order of the table");
    let coefficients = scalars(alloc, order, 1, 9, zeros)?;
    let rows = scalars(alloc, order, 3, 45, 0)?;
    let mut quick = scalars(alloc, order, 2, 5, 0)?;
    let mut plain = scalars(alloc, order, 2, 5, 0)?;
    combine(rt, &field, quick.as_mut_slice(), &coefficients, &rows);
    let by_entries = ByEntries { field };
    combine(rt, &by_entries, plain.as_mut_slice(), &coefficients, &rows);
    Ok((quick, plain))
}

fn agree(rt: &impl Abort, alloc: Global, orders: &[u32], zeros: u32) -> Result<(), NoMemory> {
    for order in orders {
        let (quick, plain) = combinations(rt, alloc, *order, zeros)?;
        assert!(rt; quick.as_slice() == plain.as_slice());
    }
    Ok(())
}

#[test]
fn combinations_agree(rt: HostRuntime) -> Result<(), NoMemory> {
    let orders = [2, 3, 5, 7, 11, 13, 17, 19, 23, 29, 31].as_slice();
    agree(&rt, rt.alloc(), orders, 0)?;
    agree(&rt, rt.alloc(), orders, 6)
}

#[test]
fn adds_rows_of_the_largest_scalar(rt: HostRuntime) -> Result<(), NoMemory> {
    // 30 * 30 = 1 modulo 31, so each entry is 30 + 9 = 8.
    let rows = vec![in rt.alloc(); 30; 45]?;
    let mut target = vec![in rt.alloc(); 30; 5]?;
    combine(
        &rt,
        &Field::ThirtyOne,
        target.as_mut_slice(),
        &[30; 9],
        &rows,
    );
    assert!(rt; target.as_slice() == [8; 5].as_slice());
    Ok(())
}
