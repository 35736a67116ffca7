ghost use Rattle.std.specs.Prelude.{◌≡◌};
ghost use Rattle.sheaf_data.specs.Betti.{degree_count};

/// One more than the largest dimension of a cell, and 0 where there are no cells.
#[tactic(auto, using(crate::proofs::DimensionLaws::degree_count_next))]
pub fn degree_count(dims: &[u8]) -> usize
    ensures { result ≡ degree_count dims.now }
{
    let mut count = 0;
    for dim in dims {
        count = count.max(usize::from(*dim) + 1);
    }
    count
}
