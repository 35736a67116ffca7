ghost use Rattle.std.specs.Prelude.{◌≡◌, ◌==◌, ◌<◌, ◌≤◌, ℕ, true, false, filter, length, not, slice_index, slice_index_or};
ghost use Rattle.std.specs.Prelude.{MatchOption};
ghost use Rattle.rising_lists.specs.Rising.{IsRising, has};
ghost use Rattle.block_complexes.specs.BlockComplexes.{cells, degree_of};

/// The degree of a live cell.
pub(crate) fn degree_in(live: &[(u32, u8, u8)], c: u32) -> u8
    requires rising { IsRising (cells live.now) }
    requires live { has c (cells live.now) ≡ true }
    ensures { result ≡ degree_of live.now c }
{
    let at = find(live, c).unwrap();
    live[at].1
}

/// Takes a cell out of a list of live cells.
pub(crate) fn remove(live: &mut Vec<(u32, u8, u8)>, c: u32)
    requires { IsRising (cells live.old.items) }
    ensures { live.new.items ≡ filter (λ l. not (l.0 == c)) live.old.items }
{
    if let Some(at) = find(live, c) {
        live.remove(at);
    }
}

/// Where a cell stands in a list of live cells.
fn find(live: &[(u32, u8, u8)], c: u32) -> Option<usize>
    requires { IsRising (cells live.now) }
    ensures { MatchOption result (has c (cells live.now) ≡ false)
        (λ i. (i < length live.now) × ((slice_index_or live.now i (0, 0, 0)).0 ≡ c)) }
{
    let at = count_below(live, c);
    if at < live.len() && live[at].0 == c {
        Some(at)
    } else {
        None
    }
}

/// How many of the live cells are below `c`.
fn count_below(live: &[(u32, u8, u8)], c: u32) -> usize
    requires { IsRising (cells live.now) }
    ensures within { result ≤ length live.now }
    ensures below { (i : ℕ) → i < result → slice_index (cells live.now) i < c }
    ensures from { (i : ℕ) → result ≤ i → i < length live.now → c ≤ slice_index (cells live.now) i }
{
    let mut low = 0;
    let mut high = live.len();
    while low < high {
        let middle = low + (high - low) / 2;
        if live[middle].0 < c {
            low = middle + 1;
        } else {
            high = middle;
        }
    }
    low
}
