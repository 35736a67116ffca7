ghost use Rattle.std.specs.Prelude.{◌≡◌, ◌<◌, length, All};
ghost use Rattle.cell_complex.specs.Invariants.{IsComplex};
ghost use Rattle.incidence_check.specs.Incidences.{HasRegularIncidences};
ghost use Rattle.square_check.specs.Searches.{IsFirstFailure};
ghost use Rattle.square_check.specs.Squares.{Commutes};
ghost use Rattle.square_check.specs.TouchedFaces.{AreRestrictions, OthersCommute};
ghost use Rattle.square_check.specs.Touches.{AreTouched};

use crate::answers::earlier;
use crate::pairs::{bad_above, bad_below, bad_first};
use cell_complex::Complex;
use dense_blocks::{Block, Scalars};

/// Which restrictions may have changed since all squares commuted.
#[derive(Clone, Copy, Debug)]
pub enum Touched<'a> {
    /// Any.
    All,
    /// Those of the faces at these places.
    Faces(&'a [u32]),
}

/// The first pair of cells, in order of the lower cell and then of the upper one, whose square does not commute; none
/// exactly where all squares commute.
///
/// The blocks stand in the order of the faces of the complex. Where faces are named, only their squares are visited,
/// and the answer is still that of all squares. Takes no memory.
pub fn first_bad<F: Scalars>(
    f: &F,
    c: &Complex,
    blocks: &[Block],
    touched: Touched<'_>,
) -> Option<(u32, u32)>
    requires regular { HasRegularIncidences c.now }
    requires restrictions { AreRestrictions (F.ops f.now) c.now blocks.now }
    requires touched { AreTouched (F.ops f.now) c.now blocks.now touched }
    ensures { IsFirstFailure (Commutes (F.ops f.now) c.now blocks.now) (length c.now.dims) result }
{
    // Before the match, for its clause too: `c` is a complex.
    let count = c.face_count();
    match touched {
        Touched::All => first_of_all(f, c, blocks, count),
        Touched::Faces(places) => first_touched(f, c, blocks, places),
    }
}

/// The first pair, of all squares, whose square does not commute, in a complex of so many faces.
fn first_of_all<F: Scalars>(f: &F, c: &Complex, blocks: &[Block], count: u32) -> Option<(u32, u32)>
    requires complex { IsComplex c.now }
    requires count { count ≡ length c.now.faces }
    requires regular { HasRegularIncidences c.now }
    requires restrictions { AreRestrictions (F.ops f.now) c.now blocks.now }
    ensures { IsFirstFailure (Commutes (F.ops f.now) c.now blocks.now) (length c.now.dims) result }
{
    let mut least = None;
    for place in 0..count {
        let face = c.face_at(place);
        let low = &blocks[place as usize];
        least = earlier(least, bad_first(f, c, blocks, low, face.s, face.t));
    }
    least
}

/// The first pair whose square does not commute, where only squares of the faces at these places may fail to.
fn first_touched<F: Scalars>(
    f: &F,
    c: &Complex,
    blocks: &[Block],
    places: &[u32],
) -> Option<(u32, u32)>
    requires complex { IsComplex c.now }
    requires regular { HasRegularIncidences c.now }
    requires restrictions { AreRestrictions (F.ops f.now) c.now blocks.now }
    requires faces { All (λ p. p < length c.now.faces) places.now }
    requires others { OthersCommute (F.ops f.now) c.now blocks.now places.now }
    ensures { IsFirstFailure (Commutes (F.ops f.now) c.now blocks.now) (length c.now.dims) result }
{
    let mut least = None;
    for &place in places {
        let face = c.face_at(place);
        least = earlier(least, bad_above(f, c, blocks, face.s, face.t));
        least = earlier(least, bad_below(f, c, blocks, face.s, face.t));
    }
    least
}
