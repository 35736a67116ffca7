ghost use Rattle.std.specs.Prelude.{[], ◌≡◌, ◌≢◌, ◌+◌, ◌*◌, ◌<◌, ◌≤◌, length, map, slice_index, slice_index_or};
ghost use Rattle.std.specs.Prelude.{All, IfSome, IfNone, MatchOption};
ghost use Rattle.dense_blocks.specs.Vectors.{AllScalars};
ghost use Rattle.dense_blocks.specs.Matrices.{cut};
ghost use Rattle.dense_blocks.specs.Columns.{HasUnitColumns, ClearsColumn, Raises, HasNoPivot, row_remainder};

use crate::scalars::Scalars;

/// Brings the first `size` columns of `size` rows, given one after another, to those of the identity, by adding
/// multiples of rows to others; or gives the first column where that cannot be done.
pub(crate) fn eliminate<F: Scalars>(f: &F, size: usize, rows: &mut [u8]) -> Option<usize>
    requires size { size ≤ 4096 }
    requires full { length rows.old ≡ size * (2 * size) }
    requires scalars { AllScalars (F.ops f.now) rows.old }
    ensures { MatchOption result
        (HasUnitColumns (F.ops f.now) size size (cut size (2 * size) rows.old) (cut size (2 * size) rows.new))
        (λ j. HasNoPivot (F.ops f.now) size j (cut size (2 * size) rows.old) (cut size (2 * size) rows.new)) }
{
    for column in 0..size {
        if !clear_column(f, size, column, rows) {
            return Some(column);
        }
    }
    None
}

/// Brings one more column to that of the identity; says whether that could be done.
fn clear_column<F: Scalars>(f: &F, size: usize, column: usize, rows: &mut [u8]) -> bool
    requires size { size ≤ 4096 }
    requires column { column < size }
    requires full { length rows.old ≡ size * (2 * size) }
    requires scalars { AllScalars (F.ops f.now) rows.old }
    ensures { ClearsColumn (F.ops f.now) size column
        (cut size (2 * size) rows.old) (cut size (2 * size) rows.new) result }
{
    let width = 2 * size;
    let later = size - column - 1;
    let (above, rest) = rows.split_at_mut(column * width);
    let (pivot, below) = rest.split_at_mut(width);
    if !raise(f, column, later, pivot, below) {
        return false;
    }
    let inverse = f.inv(pivot[column]);
    f.scale(pivot, inverse);
    clear_rows(f, column, column, pivot, above);
    clear_rows(f, column, later, pivot, below);
    true
}

/// Makes the entry of the pivot in the column another than 0, where it is 0 by adding a row below; says whether that
/// could be done.
fn raise<F: Scalars>(f: &F, column: usize, count: usize, pivot: &mut [u8], below: &[u8]) -> bool
    requires column { column < length pivot.old }
    requires full { length below.now ≡ count * length pivot.old }
    requires pivot_scalars { AllScalars (F.ops f.now) pivot.old }
    requires below_scalars { AllScalars (F.ops f.now) below.now }
    ensures { Raises (F.ops f.now) column (length pivot.old)
        (cut count (length pivot.old) below.now) pivot.old pivot.new result }
{
    if pivot[column] != 0 {
        return true;
    }
    let width = pivot.len();
    match row_with_entry(width, column, count, below) {
        None => false,
        Some(i) => {
            let start = i * width;
            f.add_scaled(pivot, 1, &below[start..start + width]);
            true
        }
    }
}

/// The first of the rows, given one after another, whose entry in the column is not 0.
fn row_with_entry(width: usize, column: usize, count: usize, rows: &[u8]) -> Option<usize>
    requires column { column < width }
    requires full { length rows.now ≡ count * width }
    ensures inside { IfSome result (λ i. i < count) }
    ensures not_zero { IfSome result (λ i. slice_index (slice_index_or (cut count width rows.now) i []) column ≢ 0) }
    ensures none { IfNone result (All (λ r. slice_index r column ≡ 0) (cut count width rows.now)) }
{
    for i in 0..count {
        if rows[i * width + column] != 0 {
            return Some(i);
        }
    }
    None
}

/// Takes off each of the rows, given one after another, as many times the pivot as the row's entry in the column says.
fn clear_rows<F: Scalars>(f: &F, column: usize, count: usize, pivot: &[u8], rows: &mut [u8])
    requires column { column < length pivot.now }
    requires full { length rows.old ≡ count * length pivot.now }
    requires pivot_scalars { AllScalars (F.ops f.now) pivot.now }
    requires row_scalars { AllScalars (F.ops f.now) rows.old }
    ensures { cut count (length pivot.now) rows.new
        ≡ map (row_remainder (F.ops f.now) column pivot.now) (cut count (length pivot.now) rows.old) }
{
    let width = pivot.len();
    for i in 0..count {
        let start = i * width;
        let row = &mut rows[start..start + width];
        let less = f.neg(row[column]);
        f.add_scaled(row, less, pivot);
    }
}
