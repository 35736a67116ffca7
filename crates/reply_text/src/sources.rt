ghost use Rattle.std.specs.Prelude.{◌≡◌, ℕ, List, true, not, map, slice_index_or, IfOk};
ghost use Rattle.std.specs.List.{filter, flat_map};
ghost use Rattle.reply_text.specs.JoinedMatrices.{block_line};
ghost use Rattle.reply_text.specs.declared.coordinates.Coordinates.{Coordinates as CoordinatesValue};
ghost use Rattle.reply_text.specs.Parts.{is_zero, joined_value, matrix_place};

use crate::blocks::are_zero;
use crate::coordinates::Coordinates;
use crate::joined::{Direction, Joined};
use dense_blocks::Block;
use std::alloc::{AllocError as NoMemory, Global};

/// Whether each matrix is zero.
fn zero_matrices(alloc: Global, matrices: &[Block]) -> Result<Vec<bool>, NoMemory>
    ensures { IfOk result (λ zeros. zeros.items ≡ map is_zero matrices.now) }
{
    matrices
        .iter()
        .map(|b| are_zero(b.entries.as_slice()))
        .collect(alloc)
}

/// Whether the matrix at this place is zero, or there is none.
fn is_zero_at(zeros: &[bool], place: u8) -> bool
    ensures { result ≡ slice_index_or zeros.now place true }
{
    match zeros.get(usize::from(place)) {
        Some(zero) => *zero,
        None => true,
    }
}

/// Those of the cells from which the joined matrix is not zero, where these say which matrices are.
fn nonzero_from(
    alloc: Global,
    direction: Direction,
    zeros: &[bool],
    from: &[Coordinates],
) -> Result<Vec<Coordinates>, NoMemory>
    ensures { IfOk result (λ list. list.items
        ≡ filter (λ s. not (slice_index_or zeros.now (matrix_place direction s.degree) true)) from.now) }
{
    from.iter()
        .copied()
        .filter(|s| !is_zero_at(zeros, direction.place(s.degree)))
        .collect(alloc)
}

/// Those of the cells from which the joined matrix is not zero: from the others no block has a line. Takes one step for
/// each entry of the matrices, and one for each cell.
pub(crate) fn sources(
    alloc: Global,
    m: Joined<'_>,
    from: &[Coordinates],
) -> Result<Vec<Coordinates>, NoMemory>
    ensures { (word : List ℕ) (to : List CoordinatesValue) → IfOk result (λ list.
        flat_map (λ s. flat_map (λ t. block_line word (joined_value m.entry) s t) to) list.items
        ≡ flat_map (λ s. flat_map (λ t. block_line word (joined_value m.entry) s t) to) from.now) }
{
    let zeros = zero_matrices(alloc, m.matrices)?;
    let list = nonzero_from(alloc, m.direction, zeros.as_slice(), from)?;
    Ok(list)
}
