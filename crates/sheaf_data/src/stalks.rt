ghost use Rattle.std.specs.Prelude.{◌↔◌, ◌≤◌, IsTrue, sum};
ghost use Rattle.sheaf_data.specs.Drafts.{AreStalks};

/// The most coordinates of a stalk.
const MOST_OF_A_STALK: u8 = 16;

/// The most coordinates of all stalks together.
const MOST_OF_ALL: u32 = 4096;

/// Whether these are sizes for the stalks of cells of these dimensions: one for each, each at most 16, and together at
/// most 4,096.
pub fn stalks_fit(dims: &[u8], stalks: &[u8]) -> bool
    ensures { IsTrue result ↔ AreStalks dims.now stalks.now }
{
    stalks.len() == dims.len()
        && stalks.iter().all(|&size| size <= MOST_OF_A_STALK)
        && are_few(stalks)
}

/// Whether the sum of the sizes is at most [`MOST_OF_ALL`].
fn are_few(sizes: &[u8]) -> bool
    ensures { IsTrue result ↔ (sum sizes.now ≤ 4096) }
{
    let mut room = MOST_OF_ALL;
    for size in sizes {
        if u32::from(*size) > room {
            return false;
        }
        room -= u32::from(*size);
    }
    true
}
