ghost use Rattle.std.specs.Prelude.{◌≡◌, ◌<◌, ◌≤◌, ◌-◌, ℕ, false, length, slice_index, MatchOption};
ghost use Rattle.rising_lists.specs.Rising.{IsRising, has, keys, stands};

/// The place that a cell has where the cells from the first on are numbered without gaps; none where it is not there.
fn guess(cells: &[u32], c: u32) -> Option<usize>
    ensures { MatchOption result (stands cells.now (c - slice_index cells.now 0) c ≡ false)
        (λ i. (i < length cells.now) × (slice_index cells.now i ≡ c)) }
{
    if cells.is_empty() {
        return None;
    }
    let at = c.saturating_sub(cells[0]) as usize;
    if at < cells.len() && cells[at] == c {
        Some(at)
    } else {
        None
    }
}

/// Where a cell stands in a rising list: one step where the cells are numbered without gaps, else a search.
pub fn place(cells: &[u32], c: u32) -> Option<usize>
    requires { IsRising cells.now }
    ensures { MatchOption result (has c cells.now ≡ false)
        (λ i. (i < length cells.now) × (slice_index cells.now i ≡ c)) }
{
    if let Some(at) = guess(cells, c) {
        return Some(at);
    }
    match cells.binary_search(&c) {
        Ok(at) => Some(at),
        Err(_) => None,
    }
}

/// How many cells of a rising list are below `c`: one step where `c` is in it and the cells are numbered without gaps,
/// else a search.
pub(crate) fn count_below(cells: &[u32], c: u32) -> usize
    requires { IsRising cells.now }
    ensures within { result ≤ length cells.now }
    ensures below { (i : ℕ) → i < result → slice_index cells.now i < c }
    ensures from { (i : ℕ) → result ≤ i → i < length cells.now → c ≤ slice_index cells.now i }
{
    if let Some(at) = guess(cells, c) {
        return at;
    }
    match cells.binary_search(&c) {
        Ok(at) => at,
        Err(at) => at,
    }
}
