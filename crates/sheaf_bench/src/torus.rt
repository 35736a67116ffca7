ghost use Rattle.std.specs.Prelude.{◌<◌, ◌≤◌, ◌^◌};

use crate::report::{Failure, Outcome, Span, checksum_of, timed};
use crate::texts::{add_cells, add_face, draft_of, sealed};
use field_table::Field;
use sheaf_data::{Draft, Sheaf};
use std::alloc::{AllocError as NoMemory, Global};
use std::rt::Clock;
use std::time::Instant;

/// Adds the text of the constant sheaf of scalars over 31 on a torus of `n` by `n` squares.
///
/// On a grid of n by n places, whose indices are taken modulo n, each place has a vertex, an edge to the next row, an
/// edge to the next column, and a square between these two edges and those across. First come all vertices, row by row,
/// then all edges of the first kind, all of the second, and all squares.
fn add_torus(alloc: Global, text: &mut String, n: u8) -> Result<(), NoMemory>
    requires { 1 ≤ n }
{
    let area = u32::from(u16::from(n) * u16::from(n));
    text.push_str("field 31\n")?;
    add_cells(text, area, "cell 0 1\n")?;
    add_cells(text, 2 * area, "cell 1 1\n")?;
    add_cells(text, area, "cell 2 1\n")?;
    for place in 0..area {
        add_faces(alloc, text, n, area, place)?;
    }
    text.push_str("done\n")
}

/// Adds the faces of the edges and of the square at one of `area` places.
fn add_faces(alloc: Global, text: &mut String, n: u8, area: u32, place: u32) -> Result<(), NoMemory>
    requires positive { 1 ≤ n }
    requires place { place < area }
    requires small { area < 2 ^ 16 }
{
    let n = u32::from(n);
    let below = (place + n) % area;
    let beside = place - place % n + (place + 1) % n;
    let (down, right, square) = (area + place, 2 * area + place, 3 * area + place);
    add_face(alloc, text, (place, down), '-')?;
    add_face(alloc, text, (below, down), '+')?;
    add_face(alloc, text, (place, right), '-')?;
    add_face(alloc, text, (beside, right), '+')?;
    add_face(alloc, text, (down, square), '+')?;
    add_face(alloc, text, (2 * area + below, square), '+')?;
    add_face(alloc, text, (area + beside, square), '-')?;
    add_face(alloc, text, (right, square), '-')
}

/// That sheaf, not yet sealed.
fn torus(alloc: Global, n: u8) -> Result<Draft<Field>, Failure>
    requires { 1 ≤ n }
{
    let mut text = String::new(alloc);
    add_torus(alloc, &mut text, n)?;
    draft_of(alloc, text.as_bytes())
}

/// The report of a call that gave this draft.
fn report(alloc: Global, span: Span, n: u32, unit: &str, d: &Draft<Field>) -> Outcome {
    timed(alloc, span, n, unit, checksum_of(0, d.blocks.as_slice()))
}

pub fn time_read<R: Clock>(rt: &R, alloc: Global, n: u8) -> Outcome
    requires { 1 ≤ n }
{
    let mut text = String::new(alloc);
    add_torus(alloc, &mut text, n)?;
    let start = Instant::now(rt).ok();
    let draft = draft_of(alloc, text.as_bytes())?;
    let end = Instant::now(rt).ok();
    let count = u32::try_from(text.len()).unwrap_or(u32::MAX);
    report(alloc, (start, end), count, "bytes", &draft)
}

pub fn time_seal<R: Clock>(rt: &R, alloc: Global, n: u8) -> Outcome
    requires { 1 ≤ n }
{
    let draft = torus(alloc, n)?;
    let start = Instant::now(rt).ok();
    let sheaf = sealed(draft)?;
    let end = Instant::now(rt).ok();
    let count = 4 * u32::from(n) * u32::from(n);
    report(alloc, (start, end), count, "squares", sheaf.draft())
}

pub fn time_put<R: Clock>(rt: &R, alloc: Global, n: u8) -> Outcome
    requires { 1 ≤ n }
{
    let mut sheaf = sealed(torus(alloc, n)?)?;
    put_again(rt, alloc, &mut sheaf)
}

/// Puts the stalks and blocks that stand.
fn put_again<R: Clock>(rt: &R, alloc: Global, sheaf: &mut Sheaf<Field>) -> Outcome {
    if sheaf.draft().complex.face_count() == 0 {
        return Err(Failure::Made);
    }
    let Draft { stalks, blocks, .. } = sheaf.draft().copy(alloc)?;
    let start = Instant::now(rt).ok();
    let answer = sheaf.put_all(stalks, blocks, &[0]);
    let end = Instant::now(rt).ok();
    if answer.is_err() {
        return Err(Failure::Made);
    }
    report(alloc, (start, end), 2, "squares", sheaf.draft())
}
