ghost use Rattle.std.specs.Prelude.{◌≡◌, ◌==◌, ◌||◌, length, slice_index};
ghost use Rattle.sheaf_text.specs.Lines.{kind_of, may_stand, count_fits, face_in};
ghost use Rattle.sheaf_text.specs.Forms.{are_numerals, is_sign, sign_of};

use crate::heads::LineWords;
use crate::words::are_numbers;
use cell_complex::{Face, Sign};

/// What a line is, by its first word.
#[derive(Clone, Copy, Debug, PartialEq, Eq)]
pub(crate) enum Kind {
    Field,
    Cell,
    Face,
    Client,
    Betti,
    Reduce,
    Equiv,
    Basis,
    Class,
    Sections,
    Extend,
    Edit,
    Stalk,
    Restrict,
    Commit,
    Done,
}

/// How far an input has come.
#[derive(Clone, Copy, Debug, PartialEq, Eq)]
pub(crate) enum Stage {
    Start,
    Cells,
    Faces,
    InClient,
    InEdit,
    Ended,
}

/// Whether a line with this first word, which has no bytes where there is none, is blank or a comment.
pub(crate) fn is_skipped(word: &[u8]) -> bool
    ensures { result ≡ ((length word.now == 0) || (slice_index word.now 0 == 35)) }
{
    matches!(word, [] | [b'#', ..])
}

/// What a line is, by its first word.
pub(crate) fn kind_of(word: &[u8]) -> Option<Kind>
    ensures { result ≡ kind_of word.now }
{
    if word == b"field".as_slice() {
        Some(Kind::Field)
    } else if word == b"cell".as_slice() {
        Some(Kind::Cell)
    } else if word == b"face".as_slice() {
        Some(Kind::Face)
    } else if word == b"client".as_slice() {
        Some(Kind::Client)
    } else if word == b"betti".as_slice() {
        Some(Kind::Betti)
    } else if word == b"reduce".as_slice() {
        Some(Kind::Reduce)
    } else if word == b"equiv".as_slice() {
        Some(Kind::Equiv)
    } else if word == b"basis".as_slice() {
        Some(Kind::Basis)
    } else if word == b"class".as_slice() {
        Some(Kind::Class)
    } else if word == b"sections".as_slice() {
        Some(Kind::Sections)
    } else if word == b"extend".as_slice() {
        Some(Kind::Extend)
    } else if word == b"edit".as_slice() {
        Some(Kind::Edit)
    } else if word == b"stalk".as_slice() {
        Some(Kind::Stalk)
    } else if word == b"restrict".as_slice() {
        Some(Kind::Restrict)
    } else if word == b"commit".as_slice() {
        Some(Kind::Commit)
    } else if word == b"done".as_slice() {
        Some(Kind::Done)
    } else {
        None
    }
}

fn may_stand_in_client(kind: Kind) -> bool
    ensures { result ≡ may_stand Stage.InClient kind }
{
    matches!(
        kind,
        Kind::Betti
            | Kind::Reduce
            | Kind::Equiv
            | Kind::Basis
            | Kind::Class
            | Kind::Sections
            | Kind::Extend
            | Kind::Edit
            | Kind::Client
            | Kind::Done
    )
}

/// Whether a line may stand here.
pub(crate) fn may_stand(stage: Stage, kind: Kind) -> bool
    ensures { result ≡ may_stand stage kind }
{
    match stage {
        Stage::Start => matches!(kind, Kind::Field),
        Stage::Cells => matches!(kind, Kind::Cell | Kind::Face | Kind::Client | Kind::Done),
        Stage::Faces => matches!(kind, Kind::Face | Kind::Client | Kind::Done),
        Stage::InClient => may_stand_in_client(kind),
        Stage::InEdit => matches!(kind, Kind::Stalk | Kind::Restrict | Kind::Commit),
        Stage::Ended => false,
    }
}

/// Whether a line may have so many words.
pub(crate) fn count_fits(kind: Kind, count: usize) -> bool
    ensures { result ≡ count_fits kind count }
{
    match kind {
        Kind::Field | Kind::Basis => count == 2,
        Kind::Cell | Kind::Stalk => count == 3,
        Kind::Face => count >= 4,
        Kind::Restrict => count >= 3,
        Kind::Class | Kind::Extend => count >= 2,
        _ => count == 1,
    }
}

/// Whether the words of a line that have to be numbers are numbers.
pub(crate) fn are_numerals(kind: Kind, line: &LineWords<'_>) -> bool
    ensures { result ≡ are_numerals kind line.now }
{
    match kind {
        Kind::Face => line.s().is_some() && line.t().is_some() && line.entries().are_numbers(),
        _ => are_numbers(line.after()),
    }
}

/// Whether a word is a sign.
pub(crate) fn is_sign(word: &[u8]) -> bool
    ensures { result ≡ is_sign word.now }
{
    word == b"+".as_slice() || word == b"-".as_slice()
}

fn sign_of(word: &[u8]) -> Sign
    ensures { result ≡ sign_of word.now }
{
    if word == b"+".as_slice() {
        Sign::Plus
    } else {
        Sign::Minus
    }
}

/// The face of a line, without its entries.
pub(crate) fn face_of(line: &LineWords<'_>) -> Face
    ensures { result ≡ face_in line.now }
{
    Face {
        s: line.s_value(),
        t: line.t_value(),
        sign: sign_of(line.sign()),
    }
}
