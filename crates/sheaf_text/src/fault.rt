ghost use Rattle.std.specs.Prelude.{◌≡◌};
ghost use Rattle.sheaf_text.specs.declared.fault.TextFault.TheVariants.{NoMemory};

use std::alloc::{AllocError, AllocFailed};

/// What is wrong with a line. For one line they are looked for in this order.
#[derive(Clone, Copy, Debug, PartialEq, Eq)]
pub enum LineCause {
    /// The bytes end before `done`; the line is the one after the last.
    End,
    /// A content line stands after `done`.
    After,
    /// The first word is none that may stand here.
    Word,
    /// There are too few words, or too many.
    Count,
    /// A word that has to be a number is none.
    Number,
    /// The sign of a face is neither `+` nor `-`.
    Sign,
    /// There is no field of this order.
    Field,
    /// A number names no cell.
    Cell,
    /// A number names a cell that is no vertex.
    Vertex,
    /// The second cell of a face is not one dimension above the first.
    Dims,
    /// The face was given already.
    Twice,
    /// A face has not as many entries as the stalks of its cells ask for.
    Shape,
    /// An entry of a face is no scalar of the field.
    Entry,
}

/// What there may be only so much of. For one line they are looked for in this order, where nothing else is wrong.
#[derive(Clone, Copy, Debug, PartialEq, Eq)]
pub enum Which {
    /// The bytes; the line is 0.
    Bytes,
    /// The dimension of a cell, or the degree that is asked about.
    Dimension,
    /// The dimension of a stalk.
    Stalk,
    /// The lines `cell`.
    Cells,
    /// The sum of the dimensions of all stalks.
    Total,
    /// The lines `face`.
    Faces,
    /// The lines `client`.
    Clients,
    /// The commands of all clients.
    Commands,
    /// The room that the replies may need.
    Room,
}

/// Why a line is refused.
#[derive(Clone, Copy, Debug, PartialEq, Eq)]
pub enum Refusal {
    /// Something is wrong with it.
    Bad(LineCause),
    /// It asks for too much.
    Over(Which),
}

/// Why there is no input.
#[derive(Clone, Copy, Debug, PartialEq, Eq)]
pub enum TextFault {
    /// A line is wrong; lines are numbered from 1.
    BadLine { line: u32, cause: LineCause },
    /// A line asks for more than is served; 0 stands for all lines.
    Limit { line: u32, which: Which },
    /// Memory ran out.
    NoMemory,
}

impl From<AllocError> for TextFault {
    ghost from_gives = { λ _ e. e ≡ NoMemory };

    fn from(_: AllocError) -> Self {
        TextFault::NoMemory
    }
}

impl<T: Drop> From<AllocFailed<T>> for TextFault {
    ghost from_gives = { λ _ e. e ≡ NoMemory };

    fn from(_: AllocFailed<T>) -> Self {
        TextFault::NoMemory
    }
}
