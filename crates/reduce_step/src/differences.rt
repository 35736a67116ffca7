ghost use Rattle.std.specs.Prelude.{◌≡◌, ◌<◌, ◌≤◌, ◌↔◌, ◌∷◌, ◌⊎◌, ℕ, true, false, IsTrue, MatchResult};
ghost use Rattle.std.specs.Prelude.{length, option_map, slice_index_or, take};
ghost use Rattle.rising_lists.specs.Rising.{IsRising, has, keys};
ghost use Rattle.block_complexes.specs.BlockComplexes.{cells};
ghost use Rattle.block_sparse.specs.Grids.{AreSized};
ghost use Rattle.reduce_step.specs.Differences.{Found, FoundResized, FoundUnlisted, IsBefore, IsEarlier};
ghost use Rattle.reduce_step.specs.Differences.{IsGained, IsReached, IsResized, IsSized, IsSameAt};

use crate::footprint::Footprint;
use crate::record::Record;
use block_grids::first_other;
use block_sparse::{Blocks, is_listed};
use dense_blocks::Scalars;

/// A pair of cells at which a block complex differs from what was copied.
#[derive(Clone, Copy, Debug, PartialEq, Eq)]
pub struct Differs {
    /// The cell that the block goes from.
    pub s: u32,
    /// The cell that the block goes to.
    pub t: u32,
}

impl<F: Scalars> Record<F> {
    ghost use Rattle.reduce_step.specs.Differences.{Fits, IsFirstDifference};

    /// Whether the blocks are still those that were copied; else the first pair at which something differs, by `s` and
    /// then by `t`.
    ///
    /// Something differs at a pair that was copied where one of the cells is not live with its size, or another matrix
    /// stands. Where `x` and `y` are live, something differs too at a pair of another cell with `y`, or of `x` with
    /// another cell, where a block stands that was not copied. Takes no memory; one search for each cell of the two
    /// lists, and of row `y` and column `x`; and one step for each block in the rows of the cells below, for each pair
    /// copied, and for each entry.
    pub fn fits(&self, b: &Blocks) -> Result<(), Differs>
        ensures { MatchResult result (λ _. Fits b.now self.now.foot)
            (λ d. IsFirstDifference b.now self.now.foot d.s d.t) }
    {
        match first_difference(&self.foot, b) {
            None => Ok(()),
            Some((s, t)) => Err(Differs { s, t }),
        }
    }
}

/// The first pair at which something differs from the footprint.
fn first_difference(foot: &Footprint, b: &Blocks) -> Option<(u32, u32)>
    ensures { Found (IsSameAt b.now foot.now) (λ _ _. Unit {0}) result }
{
    let resized = first_resized(foot, b);
    let other = first_changed(foot, b);
    let gained = first_gained(foot, b);
    earlier(earlier(resized, other), gained)
}

/// The first pair that was copied and has a cell that is not live with its size.
fn first_resized(foot: &Footprint, b: &Blocks) -> Option<(u32, u32)>
    ensures { Found (IsSameAt b.now foot.now) (IsResized b.now foot.now) result }
{
    let left = foot.left.as_slice();
    let below = foot.below.as_slice();
    let from = resized_cell(b, foot.x, foot.pivot.cols, left);
    let to = resized_cell(b, foot.y, foot.pivot.rows, below);
    earlier(
        with_to(from, least(foot.y, below)),
        with_from(least(foot.x, left), to),
    )
}

/// The first pair that was copied and has another matrix, where its cells and those listed before them are live with
/// their sizes.
fn first_changed(foot: &Footprint, b: &Blocks) -> Option<(u32, u32)>
    ensures { Found (IsSameAt b.now foot.now) (IsReached b.now foot.now) result }
{
    let left = foot.left.as_slice();
    let below = foot.below.as_slice();
    let left = &left[..count_live(b, left)];
    let below = &below[..count_live(b, below)];
    let from = [b.cell_and_size(foot.x)];
    let to = [b.cell_and_size(foot.y)];
    let from = &from[..usize::from(is_live_as(b, foot.x, foot.pivot.cols))];
    let to = &to[..usize::from(is_live_as(b, foot.y, foot.pivot.rows))];
    let pivot = first_other(b, from, to, &foot.pivot);
    let column = first_other(b, from, below, &foot.column);
    let row = first_other(b, left, to, &foot.row);
    let corner = first_other(b, left, below, &foot.corners);
    earlier(earlier(pivot, column), earlier(row, corner))
}

/// Where `x` and `y` are live, the first pair of another cell with `y`, or of `x` with another cell, where a block
/// stands that was not copied.
fn first_gained(foot: &Footprint, b: &Blocks) -> Option<(u32, u32)>
    ensures { Found (IsSameAt b.now foot.now) (IsGained b.now foot.now) result }
{
    if is_live(b, foot.x) && is_live(b, foot.y) {
        let from = unlisted(b.row(foot.y), foot.x, foot.left.as_slice());
        let to = unlisted(b.column(foot.x), foot.y, foot.below.as_slice());
        earlier(with_to(from, foot.y), with_from(foot.x, to))
    } else {
        None
    }
}

/// The first cell, of one and a rising list of others, that is not live with its size.
fn resized_cell(b: &Blocks, c: u32, size: u32, listed: &[(u32, u8)]) -> Option<u32>
    requires rising { IsRising (keys listed.now) }
    requires apart { has c (keys listed.now) ≡ false }
    ensures { FoundResized b.now.live ((c, size) ∷ listed.now) result }
{
    let at = count_live(b, listed);
    let is_live = is_live_as(b, c, size);
    if at < listed.len() && (is_live || listed[at].0 < c) {
        Some(listed[at].0)
    } else if is_live {
        None
    } else {
        Some(c)
    }
}

/// How many of the first listed cells, one after another, are live with their sizes.
fn count_live(b: &Blocks, listed: &[(u32, u8)]) -> usize
    ensures within { result ≤ length listed.now }
    ensures live { AreSized b.now.live (take result listed.now) }
    ensures other { result < length listed.now → IsSized b.now.live
        (slice_index_or listed.now result (0, 0)).0 (slice_index_or listed.now result (0, 0)).1 → ⊥ }
{
    for (i, cell) in listed.iter().enumerate() {
        if !is_live_as(b, cell.0, u32::from(cell.1)) {
            return i;
        }
    }
    listed.len()
}

/// Whether the cell is live with this size.
fn is_live_as(b: &Blocks, c: u32, size: u32) -> bool
    ensures { IsTrue result ↔ IsSized b.now.live c size }
{
    is_live(b, c) && b.size(c) == size
}

/// Whether the cell is live.
fn is_live(b: &Blocks, c: u32) -> bool
    ensures { IsTrue result ↔ (has c (cells b.now.live) ≡ true) }
{
    // The size of a live cell is at least 1.
    let _live = b.live();
    b.size(c) >= 1
}

/// The least of a cell and a rising list of others.
fn least(c: u32, listed: &[(u32, u8)]) -> u32
    requires { IsRising (keys listed.now) }
    ensures is { has result (c ∷ keys listed.now) ≡ true }
    ensures least { (k : ℕ) → has k (c ∷ keys listed.now) ≡ true → result ≤ k }
{
    if !listed.is_empty() && listed[0].0 < c {
        listed[0].0
    } else {
        c
    }
}

/// The first cell of a list that is neither the one given nor listed.
fn unlisted(cells: &[u32], but: u32, listed: &[(u32, u8)]) -> Option<u32>
    requires rising { IsRising cells.now }
    requires listed_rises { IsRising (keys listed.now) }
    ensures { FoundUnlisted cells.now (but ∷ keys listed.now) result }
{
    for c in cells {
        if !is_among(*c, but, listed) {
            return Some(*c);
        }
    }
    None
}

/// Whether the cell is the one given or listed.
fn is_among(c: u32, but: u32, listed: &[(u32, u8)]) -> bool
    requires { IsRising (keys listed.now) }
    ensures { result ≡ has c (but ∷ keys listed.now) }
{
    but == c || is_listed(listed, c)
}

/// The pair from the cell, if there is one, to `t`.
fn with_to(s: Option<u32>, t: u32) -> Option<(u32, u32)>
    ensures { result ≡ option_map (λ s. (s, t)) s }
{
    s.map(|s| (s, t))
}

/// The pair from `s` to the cell, if there is one.
fn with_from(s: u32, t: Option<u32>) -> Option<(u32, u32)>
    ensures { result ≡ option_map (λ t. (s, t)) t }
{
    t.map(|t| (s, t))
}

/// The earlier of two pairs, as far as they are there.
fn earlier(p: Option<(u32, u32)>, q: Option<(u32, u32)>) -> Option<(u32, u32)>
    ensures { IsEarlier p q result }
{
    match p {
        None => q,
        Some(p) => match q {
            None => Some(p),
            Some(q) => Some(first(p, q)),
        },
    }
}

/// The first of two pairs.
fn first(p: (u32, u32), q: (u32, u32)) -> (u32, u32)
    ensures { (IsBefore q.0 q.1 p.0 p.1 × (result ≡ q)) ⊎ ((IsBefore q.0 q.1 p.0 p.1 → ⊥) × (result ≡ p)) }
{
    if q.0 < p.0 || (q.0 == p.0 && q.1 < p.1) {
        q
    } else {
        p
    }
}
