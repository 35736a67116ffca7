ghost use Rattle.std.specs.Prelude.{◌≡◌, ℕ, ◌<◌, ◌≤◌, [], length, All, IfOk, slice_index_or};
ghost use Rattle.dense_blocks.specs.Vectors.{AllScalars, IsVector};
ghost use Rattle.dense_blocks.specs.MatrixFacts.{IsMatrix, identity};
ghost use Rattle.dense_blocks.specs.Solutions.{lists};
ghost use Rattle.cochain_vec.specs.Complexes.{total_size};
ghost use Rattle.plain_bases.specs.View.{FitsCells};
ghost use Rattle.plain_bases.specs.Parts.{images};

use crate::coboundary::coboundary;
use crate::complex::Arrow;
use cochain_vec::Cell;
use dense_blocks::{Scalars, zeros};
use std::alloc::{AllocError as NoMemory, Global};

/// Vectors of one size.
#[derive(Debug, Drop)]
pub struct Vectors {
    /// The number of coordinates of each.
    pub size: usize,
    /// The vectors.
    pub all: Vec<Vec<u8>>,
}

/// How many coordinates cells have together.
#[tactic(auto, using(crate::proofs::PartLaws::total_size_next, crate::proofs::PartLaws::total_size_prefix))]
pub fn total_size(cells: &[Cell]) -> usize
    requires { total_size cells.now ≤ 4096 }
    ensures { result ≡ total_size cells.now }
{
    let mut total: usize = 0;
    for cell in cells {
        total += cell.size as usize;
    }
    total
}

/// The unit vector number `j` of `n` coordinates.
fn unit(alloc: Global, n: usize, j: usize) -> Result<Vec<u8>, NoMemory>
    requires { j < n }
    ensures { IfOk result (λ v. v.items ≡ slice_index_or (identity n) j []) }
{
    let mut vector = zeros(alloc, n)?;
    vector[j] = 1;
    Ok(vector)
}

/// The coboundaries of the unit cochains on the source cells, at the target cells.
pub fn columns<F: Scalars>(
    alloc: Global,
    f: &F,
    arrows: &[Arrow],
    source: &[Cell],
    target: &[Cell],
) -> Result<Vectors, NoMemory>
    requires few { total_size source.now ≤ 4096 }
    requires target_few { total_size target.now ≤ 4096 }
    requires source_fits { All (FitsCells (F.ops f.now) source.now) arrows.now }
    requires target_fits { All (FitsCells (F.ops f.now) target.now) arrows.now }
    ensures size { IfOk result (λ cs. cs.size ≡ total_size target.now) }
    ensures images { IfOk result (λ cs. lists cs.all.items ≡ images (F.ops f.now) arrows.now source.now target.now) }
{
    let n = total_size(source);
    let mut all = Vec::new(alloc);
    for j in 0..n {
        let cochain = unit(alloc, n, j)?;
        let column = coboundary(alloc, f, arrows, source, target, &cochain)?;
        all.push(column)?;
    }
    Ok(Vectors {
        size: total_size(target),
        all,
    })
}
