ghost use Rattle.std.specs.Prelude.{◌≡◌, Some, None, MatchOption};
ghost use Rattle.reply_text.specs.JoinedMatrices.{goes, matrix_between};
ghost use Rattle.reply_text.specs.Parts.{joined_value, matrix_place};

use crate::coordinates::{Cell, Coordinates};
use dense_blocks::Block;

/// From which degrees matrices go to which.
#[derive(Clone, Copy)]
pub(crate) enum Direction {
    /// To the next degree.
    Up,
    /// To the same degree.
    Level,
    /// To the degree below.
    Down,
}

impl Direction {
    /// Whether they go from the one degree to the other.
    fn goes(self, from: u8, to: u8) -> bool
        ensures { result ≡ goes self from to }
    {
        match self {
            Direction::Up => u32::from(to) == u32::from(from) + 1,
            Direction::Level => to == from,
            Direction::Down => u32::from(to) + 1 == u32::from(from),
        }
    }

    /// The place of the matrix that goes from the degree.
    pub(crate) fn place(self, from: u8) -> u8
        ensures { result ≡ matrix_place self from }
    {
        match self {
            Direction::Up | Direction::Level => from,
            Direction::Down => from.saturating_sub(1),
        }
    }
}

/// Matrices joined per degree, with the cells that they go from and to.
#[derive(Clone, Copy)]
pub(crate) struct Joined<'a> {
    pub(crate) matrices: &'a [Block],
    pub(crate) from: &'a [Cell],
    pub(crate) to: &'a [Cell],
    pub(crate) direction: Direction,
}

impl<'a> Joined<'a> {
    /// The matrix that the block from one cell to another is a part of, if there is one.
    pub(crate) fn matrix_between(self, s: Coordinates, t: Coordinates) -> Option<&'a Block>
        ensures { MatchOption result (matrix_between (joined_value self.entry) s t ≡ None)
            (λ b. matrix_between (joined_value self.entry) s t ≡ Some b.now) }
    {
        if !self.direction.goes(s.degree, t.degree) {
            return None;
        }
        self.matrices.get(s.degree.min(t.degree) as usize)
    }
}
