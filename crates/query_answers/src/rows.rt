ghost use Rattle.std.specs.Prelude.{◌≡◌, ◌<◌, Some, slice_get, length, IfOk};
ghost use Rattle.equivalences.specs.CochainLists.{values_of};
ghost use Rattle.query_answers.specs.Vectors.{AreVectorsAt};

use cochain_vec::Cochain;
use dense_blocks::Listed;
use sheaf_words::Row;
use std::alloc::{AllocError as NoMemory, Global};

/// The coordinates of the basis of degree `k`, copied.
pub(crate) fn vectors(alloc: Global, bases: &[Vec<Cochain>], k: u8) -> Result<Listed<Row>, NoMemory>
    requires { k < length bases.now }
    ensures { IfOk result (AreVectorsAt bases.now k) }
{
    let basis = member(bases, usize::from(k));
    let vectors = rows(alloc, basis)?;
    Ok(vectors)
}

/// The basis of degree `k`.
pub(crate) fn member(bases: &[Vec<Cochain>], k: usize) -> &Vec<Cochain>
    requires { k < length bases.now }
    ensures { slice_get bases.now k ≡ Some result.now }
{
    &bases[k]
}

/// The coordinates of cochains, copied.
fn rows(alloc: Global, cochains: &[Cochain]) -> Result<Listed<Row>, NoMemory>
    ensures { IfOk result (λ rows. rows ≡ values_of cochains.now) }
{
    let mut rows = Vec::with_capacity(alloc, cochains.len())?;
    for z in cochains {
        let row = Vec::from_slice(alloc, &z.values)?;
        rows.push(Listed::of(row))?;
    }
    Ok(Listed::of(rows))
}
