ghost use Rattle.std.specs.Prelude.{◌≡◌, ◌≢◌, ◌⊎◌, ◌∷◌, ◌++◌, [], ℕ, ◌+◌, ◌<◌, ◌≤◌, length, IfOk, OnOk};
ghost use Rattle.dense_blocks.specs.Vectors.{IsVector, combination};
ghost use Rattle.dense_blocks.specs.MatrixFacts.{IsMatrix};
ghost use Rattle.dense_blocks.specs.Spans.{IsCombination};
ghost use Rattle.dense_blocks.specs.Solutions.{lists};
ghost use Rattle.plain_bases.specs.Complements.{Completes, IsConsidered};

use crate::columns::Vectors;
use dense_blocks::{Scalars, Solution, solve};
use std::alloc::{AllocError as NoMemory, Global};

/// Takes the candidate, if it is no combination of what was taken.
fn consider<F: Scalars>(
    alloc: Global,
    f: &F,
    candidate: &[u8],
    taken: &mut Vectors,
) -> Result<(), NoMemory>
    requires taken { IsMatrix (F.ops f.now) (length taken.old.all.items) taken.old.size (lists taken.old.all.items) }
    requires candidate { IsVector (F.ops f.now) taken.old.size candidate.now }
    ensures size { taken.new.size ≡ taken.old.size }
    ensures considered { OnOk result (IsConsidered (F.ops f.now) taken.old.size
        (lists taken.old.all.items) candidate.now (lists taken.new.all.items)) }
{
    match solve(alloc, f, &taken.all, candidate)? {
        Solution::Combination(_) => Ok(()),
        Solution::Apart(_) => {
            let chosen = Vec::from_slice(alloc, candidate)?;
            taken.all.push(chosen)?;
            Ok(())
        }
    }
}

/// Candidates, independent of the others, which together with the others span all candidates.
pub fn complement<F: Scalars>(
    alloc: Global,
    f: &F,
    others: Vectors,
    candidates: &Vectors,
) -> Result<Vec<Vec<u8>>, NoMemory>
    requires sizes { others.size ≡ candidates.now.size }
    requires others { IsMatrix (F.ops f.now) (length others.all.items) others.size (lists others.all.items) }
    requires candidates { IsMatrix (F.ops f.now) (length candidates.now.all.items) candidates.now.size
        (lists candidates.now.all.items) }
    ensures completes { IfOk result (λ b. Completes (F.ops f.now) others.size (lists others.all.items)
        (lists candidates.now.all.items) (length candidates.now.all.items) (lists b.items)) }
    ensures few { IfOk result (λ b. length b.items ≤ length candidates.now.all.items) }
{
    let count = others.all.len();
    let mut taken = others;
    for candidate in &candidates.all {
        consider(alloc, f, candidate, &mut taken)?;
    }
    let chosen = taken.all.split_off(count)?;
    Ok(chosen)
}
