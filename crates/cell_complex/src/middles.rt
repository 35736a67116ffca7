ghost use Rattle.std.specs.Prelude.{◌≡◌};
ghost use Rattle.std.specs.List.Sorted.{IsStrictlyIncreasing};
ghost use Rattle.std.specs.Iterator.{YieldsFirst, item_count};
ghost use Rattle.cell_complex.specs.Common.{common};

use std::marker::Model;

/// The cells between two cells, rising: what two rising lists have in common.
#[derive(Debug, Drop)]
pub struct Middles<'a> {
    cofaces: &'a [u32],
    faces: &'a [u32],
    end: usize,
}

impl<'a> Model for Middles<'a> {
    ghost use Rattle.std.specs.Prelude.{List, ℕ};
    ghost use Rattle.std.specs.List.Sorted.{IsStrictlyIncreasing};
    ghost use Rattle.cell_complex.specs.Common.{common};

    ghost Value = { List ℕ };

    ghost view = { λ m. common m.cofaces.now m.faces.now };

    ghost invariant = { λ m. IsStrictlyIncreasing m.cofaces.now × IsStrictlyIncreasing m.faces.now };
}

impl<'a> Middles<'a> {
    /// What the two lists have in common, where the faces should stand before the place `end` among all faces.
    pub(crate) fn of(cofaces: &'a [u32], faces: &'a [u32], end: usize) -> Self
        requires cofaces_rise { IsStrictlyIncreasing cofaces.now }
        requires faces_rise { IsStrictlyIncreasing faces.now }
        ensures { result ≡ common cofaces.now faces.now }
    {
        Middles {
            cofaces,
            faces,
            end,
        }
    }

    /// Where the last cell should stand as a face of the upper cell, for [`Complex::sign_near`] and
    /// [`Complex::place_near`]; no clause says that it does.
    pub fn guess(&self) -> usize {
        self.end.saturating_sub(self.faces.len().saturating_add(1))
    }
}

impl Iterator for Middles<'_> {
    type Item = u32;

    ghost next_gives = { YieldsFirst (λ m. m) };

    ghost remaining = { item_count (λ m. m) };

    fn next(&mut self) -> Option<u32> {
        'merge: loop {
            let (&t, cofaces) = self.cofaces.split_first()?;
            let (&v, faces) = self.faces.split_first()?;
            if t < v {
                self.cofaces = cofaces;
            } else if v < t {
                self.faces = faces;
            } else {
                self.cofaces = cofaces;
                self.faces = faces;
                return Some(t);
            }
        }
    }
}
