ghost use Rattle.std.specs.Prelude.{◌≡◌, ◌∷◌, ◌++◌, ℕ, ◌+◌, ◌<◌, ◌≤◌, length, IfOk, OnOk};
ghost use Rattle.dense_blocks.specs.Vectors.{zeros};
ghost use Rattle.dense_blocks.specs.MatrixFacts.{IsMatrix};
ghost use Rattle.dense_blocks.specs.Solutions.{lists};
ghost use Rattle.plain_bases.specs.Relations.{SpansRelations, SpansRelationsBelow};

use crate::columns::Vectors;
use dense_blocks::{Scalars, Solution, solve, zeros};
use std::alloc::{AllocError as NoMemory, Global};

/// The relation that says that a vector is a combination of those before it, with `more` vectors after it.
fn relation<F: Scalars>(
    alloc: Global,
    f: &F,
    combination: Vec<u8>,
    more: usize,
) -> Result<Vec<u8>, NoMemory>
    ensures { IfOk result (λ z. z.items ≡ combination.items ++ (F.ops f.now).neg 1 ∷ zeros more) }
{
    let mut relation = combination;
    relation.push(f.neg(1))?;
    let rest = zeros(alloc, more)?;
    relation.extend_from_slice(&rest)?;
    Ok(relation)
}

/// Adds the relation of vector `j`, if it is a combination of those before it.
fn add_relation<F: Scalars>(
    alloc: Global,
    f: &F,
    vectors: &Vectors,
    j: usize,
    found: &mut Vec<Vec<u8>>,
) -> Result<(), NoMemory>
    requires vectors { IsMatrix (F.ops f.now) (length vectors.now.all.items) vectors.now.size
        (lists vectors.now.all.items) }
    requires place { j < length vectors.now.all.items }
    requires before { SpansRelationsBelow (F.ops f.now) vectors.now.size
        (lists vectors.now.all.items) j (lists found.old.items) }
    ensures spans { OnOk result (SpansRelationsBelow (F.ops f.now) vectors.now.size
        (lists vectors.now.all.items) (j + 1) (lists found.new.items)) }
    ensures one_more { OnOk result (length found.new.items ≤ length found.old.items + 1) }
{
    match solve(alloc, f, &vectors.all[..j], &vectors.all[j])? {
        Solution::Combination(c) => {
            let own = relation(alloc, f, c, vectors.all.len() - j - 1)?;
            found.push(own)?;
            Ok(())
        }
        Solution::Apart(_) => Ok(()),
    }
}

/// Relations among vectors of which each relation among them is a combination: one for each vector that is a
/// combination of those before it.
pub fn relations<F: Scalars>(alloc: Global, f: &F, vectors: &Vectors) -> Result<Vectors, NoMemory>
    requires { IsMatrix (F.ops f.now) (length vectors.now.all.items) vectors.now.size (lists vectors.now.all.items) }
    ensures size { IfOk result (λ zs. zs.size ≡ length vectors.now.all.items) }
    ensures spans { IfOk result (λ zs.
        SpansRelations (F.ops f.now) vectors.now.size (lists vectors.now.all.items) (lists zs.all.items)) }
    ensures few { IfOk result (λ zs. length zs.all.items ≤ length vectors.now.all.items) }
{
    let mut found = Vec::new(alloc);
    for j in 0..vectors.all.len() {
        add_relation(alloc, f, vectors, j, &mut found)?;
    }
    Ok(Vectors {
        size: vectors.all.len(),
        all: found,
    })
}
