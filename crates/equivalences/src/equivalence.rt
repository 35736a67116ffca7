ghost use Rattle.std.specs.Prelude.{◌≡◌, length};

use dense_blocks::{Block, Listed};

/// The three maps of an equivalence of two complexes, a large one and a small one, as joined matrices.
///
/// Each list has a matrix for each degree from 0 to 15; in a degree without coordinates it has no rows or no columns.
#[derive(Debug, Drop)]
pub struct Equivalence {
    /// At `k` the map from the large complex to the small one in degree `k`.
    pub pi: Listed<Block>,
    /// At `k` the map from the small complex to the large one in degree `k`.
    pub iota: Listed<Block>,
    /// At `k` the homotopy from degree `k + 1` to degree `k` of the large complex.
    pub h: Listed<Block>,
    pub ghost pi_count: { length pi ≡ 16 },
    pub ghost iota_count: { length iota ≡ 16 },
    pub ghost h_count: { length h ≡ 16 },
}

impl Equivalence {
    /// The number of degrees.
    pub const DEGREES: usize = 16;
}
