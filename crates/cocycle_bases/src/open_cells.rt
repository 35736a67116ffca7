ghost use Rattle.std.specs.Prelude.{◌≡◌, ◌↔◌, ◌∷◌, [], length, All, IsTrue, MatchOption};
ghost use Rattle.cochain_vec.specs.Complexes.{total_size};
ghost use Rattle.block_complexes.specs.Cochains.{of_degree};
ghost use Rattle.block_sparse.specs.StoredBlocks.{AreLive};
ghost use Rattle.cocycle_bases.specs.Classes.{IsFirstNonzeroCell};

/// The first of the live cells of this degree at which the cochain of it is not zero; none where it is zero.
///
/// Takes a look at each live cell and each coordinate up to there.
pub(crate) fn first_open(live: &[(u32, u8, u8)], degree: u8, values: &[u8]) -> Option<u32>
    requires live_cells { AreLive live.now }
    requires size { length values.now ≡ total_size (of_degree degree live.now) }
    ensures { MatchOption result (All (λ a. a ≡ 0) values.now)
        (λ t. IsFirstNonzeroCell (of_degree degree live.now) values.now t) }
{
    let mut start = 0;
    for cell in live {
        let end = start + size_at(degree, *cell);
        if !is_zero(&values[start..end]) {
            return Some(cell.0);
        }
        start = end;
    }
    None
}

/// How many coordinates a cochain of this degree has at the cell.
fn size_at(degree: u8, cell: (u32, u8, u8)) -> usize
    ensures { result ≡ total_size (of_degree degree (cell ∷ [])) }
{
    if cell.1 == degree {
        usize::from(cell.2)
    } else {
        0
    }
}

/// Whether each coordinate is 0.
fn is_zero(values: &[u8]) -> bool
    ensures { IsTrue result ↔ All (λ a. a ≡ 0) values.now }
{
    values.iter().all(|a| *a == 0)
}
