//! Vectors that solve, inverses and kernels, over the field of five elements.
ghost use Rattle.std.specs.Prelude.{◌≡◌, All, IfOk, length};
ghost use Rattle.dense_blocks.specs.Vectors.{AllScalars};

use crate::blocks::block;
use dense_blocks::{Inverse, Scalars, Solution, all_scalars, invert, solve};
use field_table::Field;
use std::alloc::{AllocError as NoMemory, Global};
use std::process::Abort;

/// The columns, once it is seen that they are vectors of `size` scalars.
fn columns_of<F: Scalars>(
    rt: &impl Abort,
    alloc: Global,
    f: &F,
    size: usize,
    rows: &[&[u8]],
) -> Result<Vec<Vec<u8>>, NoMemory>
    ensures sizes { IfOk result (λ cs. All (λ c. length c.items ≡ size) cs.items) }
    ensures scalars { IfOk result (λ cs. All (λ c. AllScalars (F.ops f.now) c.items) cs.items) }
{
    let mut columns = Vec::new(alloc);
    for row in rows {
        assert!(rt; row.len() == size && all_scalars(f, row));
        columns.push(Vec::from_slice(alloc, row)?)?;
    }
    Ok(columns)
}

// Whether the columns combine to the vector, and the coefficients.
fn solution(
    rt: &impl Abort,
    alloc: Global,
    rows: &[&[u8]],
    v: &[u8],
) -> Result<(bool, Vec<u8>), NoMemory> {
    let f = Field::Five;
    assert!(rt; all_scalars(&f, v));
    let columns = columns_of(rt, alloc, &f, v.len(), rows)?;
    match solve(alloc, &f, columns.as_slice(), v)? {
        Solution::Combination(coefficients) => Ok((true, coefficients)),
        Solution::Apart(functional) => Ok((false, functional)),
    }
}

#[test]
fn solves(rt: HostRuntime) -> Result<(), NoMemory> {
    let (found, answer) = solution(&rt, rt.alloc(), &[&[1, 2], &[2, 4]], &[3, 1])?;
    // A column that an earlier one gives has the coefficient 0.
    assert!(rt; found && answer.as_slice() == [3, 0].as_slice());
    Ok(())
}

#[test]
fn tells_apart(rt: HostRuntime) -> Result<(), NoMemory> {
    let (found, answer) = solution(&rt, rt.alloc(), &[&[1, 1, 1]], &[0, 0, 1])?;
    // A row that earlier ones give has the coefficient 0.
    assert!(rt; !found && answer.as_slice() == [4, 0, 1].as_slice());
    Ok(())
}

// Whether a block of two rows has an inverse, and it or the vector in the kernel.
fn inverted(rt: &impl Abort, alloc: Global, entries: &[u8]) -> Result<(bool, Vec<u8>), NoMemory> {
    let f = Field::Five;
    let a = block(rt, alloc, &f, (2, 2), entries)?;
    match invert(alloc, &f, &a)? {
        Inverse::Both(b) => Ok((true, Vec::from_slice(alloc, b.entries.as_slice())?)),
        Inverse::Singular(vector) => Ok((false, vector)),
    }
}

#[test]
fn inverts(rt: HostRuntime) -> Result<(), NoMemory> {
    // The first entry is 0, and a row below helps.
    let (found, inverse) = inverted(&rt, rt.alloc(), &[0, 2, 3, 0])?;
    assert!(rt; found && inverse.as_slice() == [0, 2, 3, 0].as_slice());
    Ok(())
}

#[test]
fn finds_a_kernel(rt: HostRuntime) -> Result<(), NoMemory> {
    let (found, vector) = inverted(&rt, rt.alloc(), &[1, 2, 2, 4])?;
    assert!(rt; !found && vector.as_slice() == [3, 1].as_slice());
    Ok(())
}
