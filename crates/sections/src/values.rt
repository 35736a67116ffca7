ghost use Rattle.std.specs.Prelude.{◌≡◌, ◌+◌, ◌≤◌, ◌∷◌, [], true, length, map, take, drop, All, IfOk};
ghost use Rattle.dense_blocks.specs.Vectors.{AllScalars, IsVector, combination};
ghost use Rattle.dense_blocks.specs.Solutions.{lists};
ghost use Rattle.cochain_vec.specs.Complexes.{total_size};
ghost use Rattle.rising_lists.specs.Rising.{has};
ghost use Rattle.block_complexes.specs.BlockComplexes.{cells, degree_of};
ghost use Rattle.block_complexes.specs.Cochains.{of_degree};
ghost use Rattle.block_sparse.specs.StoredBlocks.{AreLive};
ghost use Rattle.equivalences.specs.CochainLists.{values_of};
ghost use Rattle.sections.specs.Places.{BeginAt};

use cochain_vec::Cochain;
use dense_blocks::{Scalars, add_scaled, zeros};
use std::alloc::{AllocError as NoMemory, Global};

/// Where the coordinates at the cell `s` begin in a cochain of degree 0, if the cell is live.
///
/// Takes a look at each live cell up to there.
pub(crate) fn start_of(live: &[(u32, u8, u8)], s: u32) -> usize
    requires live_cells { AreLive live.now }
    requires vertex { has s (cells live.now) ≡ true → degree_of live.now s ≡ 0 }
    ensures { BeginAt live.now s result }
{
    let mut start = 0;
    for cell in live {
        if cell.0 == s {
            return start;
        }
        start += size_at(*cell);
    }
    start
}

/// How many coordinates a cochain of degree 0 has at the cell.
fn size_at(cell: (u32, u8, u8)) -> usize
    ensures { result ≡ total_size (of_degree 0 (cell ∷ [])) }
{
    if cell.1 == 0 { usize::from(cell.2) } else { 0 }
}

/// So many coordinates of each cochain, from a place on.
pub(crate) fn values_at(
    alloc: Global,
    cochains: &[Cochain],
    start: usize,
    size: usize,
) -> Result<Vec<Vec<u8>>, NoMemory>
    requires { All (λ z. start + size ≤ length z.values.items) cochains.now }
    ensures { IfOk result (λ values. lists values.items
        ≡ map (λ z. take size (drop start z)) (values_of cochains.now)) }
{
    let mut values = Vec::with_capacity(alloc, cochains.len())?;
    for cochain in cochains {
        let value = part(alloc, cochain, start, size)?;
        values.push(value)?;
    }
    Ok(values)
}

/// So many coordinates of a cochain, from a place on.
fn part(alloc: Global, cochain: &Cochain, start: usize, size: usize) -> Result<Vec<u8>, NoMemory>
    requires { start + size ≤ length cochain.now.values.items }
    ensures { IfOk result (λ value. value.items ≡ take size (drop start cochain.now.values.items)) }
{
    Vec::from_slice(alloc, &cochain.values[start..start + size])
}

/// The coordinates of the combination, by the coefficients, of cochains that have so many.
///
/// Takes a sum and a product of scalars for each coordinate of each cochain whose coefficient is not 0.
pub(crate) fn combination<F: Scalars>(
    alloc: Global,
    f: &F,
    size: usize,
    coefficients: &[u8],
    cochains: &[Cochain],
) -> Result<Vec<u8>, NoMemory>
    requires coefficients { IsVector (F.ops f.now) (length cochains.now) coefficients.now }
    requires cochains { All (IsVector (F.ops f.now) size) (values_of cochains.now) }
    ensures { IfOk result (λ sum. sum.items
        ≡ combination (F.ops f.now) size coefficients.now (values_of cochains.now)) }
{
    let mut sum = zeros(alloc, size)?;
    for i in 0..cochains.len() {
        add_scaled(f, &mut sum, coefficients[i], &cochains[i].values);
    }
    Ok(sum)
}
