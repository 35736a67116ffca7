ghost use Rattle.std.specs.Prelude.{◌≡◌, ◌==◌, ℕ, ◌+◌, ◌^◌, ◌<◌, ◌≤◌, length, filter, IfOk};
ghost use Rattle.dense_blocks.specs.MatrixFacts.{IsMatrix};
ghost use Rattle.dense_blocks.specs.Solutions.{lists};
ghost use Rattle.cochain_vec.specs.Complexes.{coordinates};
ghost use Rattle.cochain_vec.specs.Cohomology.{IsBasis};
ghost use Rattle.plain_bases.specs.Columns.{columns_from, columns_into};
ghost use Rattle.plain_bases.specs.View.{plain_complex_of, IsComplexOver};

use crate::columns::{Vectors, columns, total_size};
use crate::complements::complement;
use crate::complex::Complex;
use crate::relations::relations;
use cochain_vec::Cell;
use dense_blocks::Scalars;
use std::alloc::{AllocError as NoMemory, Global};

/// The cells of a degree, in order.
fn cells_of(alloc: Global, complex: &Complex, degree: u32) -> Result<Vec<Cell>, NoMemory>
    ensures { IfOk result (λ own. own.items ≡ filter (λ c. c.degree == degree) complex.now.cells) }
{
    let cells = complex.cells.as_slice();
    cells
        .iter()
        .copied()
        .filter(|c| c.degree == degree)
        .collect(alloc)
}

/// The columns of the coboundary from a degree to the next: one for each coordinate of the degree, of the coordinates
/// of the next.
fn columns_from<F: Scalars>(
    alloc: Global,
    f: &F,
    complex: &Complex,
    degree: u32,
) -> Result<Vectors, NoMemory>
    requires complex { IsComplexOver (F.ops f.now) complex.now }
    requires degree { degree + 1 < 2 ^ 32 }
    ensures size { IfOk result (λ cs. cs.size ≡ coordinates (plain_complex_of complex.now) (degree + 1)) }
    ensures columns { IfOk result (λ cs.
        lists cs.all.items ≡ columns_from (F.ops f.now) (plain_complex_of complex.now) degree) }
    ensures vectors { IfOk result (λ cs. IsMatrix (F.ops f.now) (length cs.all.items) cs.size (lists cs.all.items)) }
{
    let source = cells_of(alloc, complex, degree)?;
    let target = cells_of(alloc, complex, degree + 1)?;
    let columns = columns(alloc, f, complex.arrows.as_slice(), &source, &target)?;
    Ok(columns)
}

/// The columns of the coboundary into a degree, one for each coordinate of the degree below; none in degree 0.
fn columns_into<F: Scalars>(
    alloc: Global,
    f: &F,
    complex: &Complex,
    degree: u32,
) -> Result<Vectors, NoMemory>
    requires complex { IsComplexOver (F.ops f.now) complex.now }
    ensures size { IfOk result (λ cs. cs.size ≡ coordinates (plain_complex_of complex.now) degree) }
    ensures columns { IfOk result (λ cs.
        lists cs.all.items ≡ columns_into (F.ops f.now) (plain_complex_of complex.now) degree) }
    ensures vectors { IfOk result (λ cs. IsMatrix (F.ops f.now) (length cs.all.items) cs.size (lists cs.all.items)) }
{
    if degree > 0 {
        return columns_from(alloc, f, complex, degree - 1);
    }
    let cells = cells_of(alloc, complex, 0)?;
    Ok(Vectors {
        size: total_size(&cells),
        all: Vec::new(alloc),
    })
}

/// A basis of the cohomology of a degree: cocycles that are independent modulo coboundaries, and that span all cocycles
/// with them.
///
/// They are picked, in order, from the cocycles that the columns of the coboundary give, one for each column that is a
/// combination of those before it: each that is no combination of the coboundaries and of the members already picked.
/// Each member has the coordinates of a cochain of that degree, in order of cells. Fails only where memory does.
pub fn basis<F: Scalars>(
    alloc: Global,
    f: &F,
    complex: &Complex,
    degree: u32,
) -> Result<Vec<Vec<u8>>, NoMemory>
    requires complex { IsComplexOver (F.ops f.now) complex.now }
    requires degree { degree + 1 < 2 ^ 32 }
    ensures basis { IfOk result (λ b. IsBasis (F.ops f.now) (plain_complex_of complex.now) degree (lists b.items)) }
    ensures few { IfOk result (λ b. length b.items ≤ 4096) }
{
    let outgoing = columns_from(alloc, f, complex, degree)?;
    let cocycles = relations(alloc, f, &outgoing)?;
    let incoming = columns_into(alloc, f, complex, degree)?;
    let basis = complement(alloc, f, incoming, &cocycles)?;
    Ok(basis)
}
