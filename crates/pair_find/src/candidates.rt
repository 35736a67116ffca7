ghost use Rattle.std.specs.Prelude.{◌≡◌, ℕ, false, MatchOption};
ghost use Rattle.block_sparse.specs.Candidates.{is_candidate};
ghost use Rattle.pair_find.specs.Pairs.{IsFirstFrom, IsNextFrom, NoneFrom};

use block_sparse::Blocks;

/// The cells of the first square block without a flag at or after the pair `from`; where there is none, of the first of
/// all.
///
/// A pair (s, t) stands for the block from `s` to `t`; pairs go by `s`, then by `t`. None exactly where each square
/// block has its flag set. Takes no memory, and one step for each column and for each block of the first column that it
/// passes.
pub fn next_candidate(b: &Blocks, from: (u32, u32)) -> Option<(u32, u32)>
    ensures { MatchOption result ((s t : ℕ) → is_candidate b.now s t ≡ false) (λ p. IsNextFrom b.now from p) }
{
    match first_from(b, from) {
        Some(pair) => Some(pair),
        None => first_from(b, (0, 0)),
    }
}

/// The first candidate at or after a pair.
fn first_from(b: &Blocks, from: (u32, u32)) -> Option<(u32, u32)>
    ensures { MatchOption result (NoneFrom b.now from) (λ p. IsFirstFrom b.now from p) }
{
    match b.next_open(from.0, from.1) {
        Some(t) => Some((from.0, t)),
        None => b.first_open_after(from.0),
    }
}
