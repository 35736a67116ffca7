ghost use Rattle.std.specs.Prelude.{◌≡◌, ◌==◌, ◌<◌, ◌≤◌, ◌+◌, ◌*◌, ℕ, true, false, None, Some, ◌∷◌, if◌then◌else◌};
ghost use Rattle.std.specs.Prelude.{length, map, slice_index, slice_index_or, MatchBool, OnOk, IfOk};
ghost use Rattle.std.specs.Vec.Iter.{into_iter_items};
ghost use Rattle.rising_lists.specs.Rising.{IsRising, IsLine, keys, look, stands, past, IsNext, IsMerge};
ghost use Rattle.rising_lists.specs.Rising.{nonzero_entry, value_if, strided};

use crate::duplicate::Duplicate;
use std::alloc::{AllocError as NoMemory, Global};
use std::vec::IntoIter;

/// The least cell of two rising lists from these places on, one of which has some left.
pub(crate) fn next_cell(first: &[u32], i: usize, second: &[(u32, u8)], j: usize) -> u32
    requires { length first.now ≤ i → j < length second.now }
    ensures { IsNext first.now (keys second.now) i j result }
{
    if j < second.len() && (i >= first.len() || second[j].0 <= first[i]) {
        second[j].0
    } else {
        first[i]
    }
}

/// Whether the cell stands at the place.
pub(crate) fn is_listed(cells: &[(u32, u8)], i: usize, c: u32) -> bool
    ensures { result ≡ stands (keys cells.now) i c }
{
    i < cells.len() && cells[i].0 == c
}

/// The place after this one where the cell stands at it, else the same place.
pub(crate) fn past(cells: &[u32], i: usize, c: u32) -> usize
    ensures { result ≡ past cells.now i c }
{
    if i < cells.len() && cells[i] == c {
        i + 1
    } else {
        i
    }
}

/// The place after this one where the cell stands at it, else the same place.
pub(crate) fn past_listed(cells: &[(u32, u8)], i: usize, c: u32) -> usize
    ensures { result ≡ past (keys cells.now) i c }
{
    if is_listed(cells, i, c) { i + 1 } else { i }
}

/// The next fresh value for a listed cell; else a copy of the value at the place.
pub(crate) fn next_value<T: Duplicate>(
    alloc: Global,
    listed: bool,
    fresh: &mut IntoIter<Option<T>>,
    values: &[T],
    i: usize,
) -> Result<Option<T>, NoMemory>
    requires some { listed ≡ true → 0 < length (into_iter_items fresh.old) }
    requires inside { listed ≡ false → i < length values.now }
    ensures { IfOk result (λ v. MatchBool listed
        (into_iter_items fresh.old ≡ v ∷ into_iter_items fresh.new)
        ((into_iter_items fresh.new ≡ into_iter_items fresh.old)
        × ((d : T) → v ≡ Some (slice_index_or values.now i d)))) }
{
    if listed {
        match fresh.next() {
            Some(value) => Ok(value),
            None => Ok(None),
        }
    } else {
        Ok(Some(values[i].duplicate(alloc)?))
    }
}

/// Puts the value of a later cell at the end, if there is one; without memory one of the lists may be longer.
pub(crate) fn append<T: Drop>(
    cells: &mut Vec<u32>,
    values: &mut Vec<T>,
    c: u32,
    value: Option<T>,
) -> Result<(), NoMemory>
    requires line { IsLine {A = T} (record { cells = cells.old.items; values = values.old.items }) }
    requires later { (q : ℕ) → c ≤ q → look q cells.old.items values.old.items ≡ None }
    ensures line { OnOk result (IsLine {A = T} (record { cells = cells.new.items; values = values.new.items })) }
    ensures entries { OnOk result ((q : ℕ) → look q cells.new.items values.new.items
        ≡ (if q == c then value else look q cells.old.items values.old.items)) }
{
    if let Some(value) = value {
        cells.push(c)?;
        values.push(value)?;
    }
    Ok(())
}

/// Whether the next cell of a merge is one that the line keeps, before any that is listed.
fn is_kept(old: &[u32], i: usize, listed: &[(u32, u8)], j: usize) -> bool
    requires { length old.now ≤ i → j < length listed.now }
    ensures kept { result ≡ true → (i < length old.now)
        × (j < length listed.now → slice_index old.now i < slice_index (keys listed.now) j) }
    ensures listed { result ≡ false → (j < length listed.now)
        × (i < length old.now → slice_index (keys listed.now) j ≤ slice_index old.now i) }
{
    j >= listed.len() || (i < old.len() && old[i] < listed[j].0)
}

/// Merges a line with listed cells that get entries, or none where theirs is 0, into two lists that have room.
pub(crate) fn merge_entries(
    old: &[u32],
    old_values: &[u8],
    listed: &[(u32, u8)],
    entries: &[u8],
    cells: &mut [u32],
    values: &mut [u8],
) -> usize
    requires rising { IsRising old.now }
    requires full { length old_values.now ≡ length old.now }
    requires listed_rising { IsRising (keys listed.now) }
    requires listed_full { length entries.now ≡ length listed.now }
    requires cell_room { length old.now + length listed.now ≤ length cells.old }
    requires value_room { length old.now + length listed.now ≤ length values.old }
    ensures { IsMerge old.now old_values.now (keys listed.now) (map nonzero_entry entries.now) result
        cells.new values.new }
{
    let mut i = 0;
    let mut j = 0;
    let mut k = 0;
    while j < listed.len() || i < old.len() {
        if is_kept(old, i, listed, j) {
            cells[k] = old[i];
            values[k] = old_values[i];
            i += 1;
            k += 1;
        } else {
            let c = listed[j].0;
            if entries[j] != 0 {
                cells[k] = c;
                values[k] = entries[j];
                k += 1;
            }
            i = past(old, i, c);
            j += 1;
        }
    }
    k
}

/// The same with one value for each entry that is not 0; the entries stand `step` places apart.
pub(crate) fn merge_value<T: Copy>(
    old: &[u32],
    old_values: &[T],
    listed: &[(u32, u8)],
    value: T,
    entries: &[u8],
    start: usize,
    step: usize,
    cells: &mut [u32],
    values: &mut [T],
) -> usize
    requires rising { IsRising old.now }
    requires full { length old_values.now ≡ length old.now }
    requires listed_rising { IsRising (keys listed.now) }
    requires start { start < step }
    requires within { length listed.now * step ≤ length entries.now }
    requires cell_room { length old.now + length listed.now ≤ length cells.old }
    requires value_room { length old.now + length listed.now ≤ length values.old }
    ensures { IsMerge old.now old_values.now (keys listed.now)
        (map (value_if value) (strided entries.now start step (length listed.now))) result cells.new values.new }
{
    let mut i = 0;
    let mut j = 0;
    let mut k = 0;
    while j < listed.len() || i < old.len() {
        if is_kept(old, i, listed, j) {
            cells[k] = old[i];
            values[k] = old_values[i];
            i += 1;
            k += 1;
        } else {
            let c = listed[j].0;
            if entries[start + j * step] != 0 {
                cells[k] = c;
                values[k] = value;
                k += 1;
            }
            i = past(old, i, c);
            j += 1;
        }
    }
    k
}
