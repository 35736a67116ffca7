ghost use Rattle.std.specs.Prelude.{◌≡◌, ℕ, ◌<◌, ◌↔◌, true, Some, IsTrue, MatchOption, length};
ghost use Rattle.cell_complex.specs.Complexes.{is_face};
ghost use Rattle.cell_complex.specs.Invariants.{IsComplex};
ghost use Rattle.incidence_check.specs.Incidences.{HasRegularIncidences};
ghost use Rattle.square_check.specs.Searches.{Fails, PassesBefore, IsFirstMiddle};
ghost use Rattle.square_check.specs.Squares.{Commutes, restriction};
ghost use Rattle.square_check.specs.TouchedFaces.{AreRestrictions};

use crate::answers::earlier;
use crate::squares::square;
use cell_complex::Complex;
use dense_blocks::{Block, Scalars};

/// The block of `s` in `t`.
fn restriction<'a>(c: &Complex, blocks: &'a [Block], s: u32, t: u32) -> &'a Block
    requires count { length blocks.now ≡ length c.now.faces }
    requires face { is_face c.now s t ≡ true }
    ensures { restriction c.now blocks.now s t ≡ Some result.now }
{
    &blocks[c.place(s, t).unwrap() as usize]
}

/// The block of `s` in `t`; without a look-up where the face stands at the place `guess`.
fn restriction_near<'a>(c: &Complex, blocks: &'a [Block], guess: usize, s: u32, t: u32) -> &'a Block
    requires count { length blocks.now ≡ length c.now.faces }
    requires face { is_face c.now s t ≡ true }
    ensures { restriction c.now blocks.now s t ≡ Some result.now }
{
    &blocks[c.place_near(guess, s, t).unwrap() as usize]
}

/// Whether the square from `s` to `u` commutes.
fn commutes<F: Scalars>(f: &F, c: &Complex, blocks: &[Block], s: u32, u: u32) -> bool
    requires complex { IsComplex c.now }
    requires regular { HasRegularIncidences c.now }
    requires restrictions { AreRestrictions (F.ops f.now) c.now blocks.now }
    requires s_is_cell { s < length c.now.dims }
    requires u_is_cell { u < length c.now.dims }
    ensures { IsTrue result ↔ Commutes (F.ops f.now) c.now blocks.now s u }
{
    let mut middles = c.middles(s, u);
    let Some(first) = middles.next() else {
        return true;
    };
    let Some(second) = middles.next() else {
        return true;
    };
    square(
        f,
        restriction(c, blocks, first, u),
        restriction(c, blocks, s, first),
        restriction(c, blocks, second, u),
        restriction(c, blocks, s, second),
    )
}

/// The pair of `s` and `u`, if its square does not commute.
fn bad_pair<F: Scalars>(f: &F, c: &Complex, blocks: &[Block], s: u32, u: u32) -> Option<(u32, u32)>
    requires complex { IsComplex c.now }
    requires regular { HasRegularIncidences c.now }
    requires restrictions { AreRestrictions (F.ops f.now) c.now blocks.now }
    requires s_is_cell { s < length c.now.dims }
    requires u_is_cell { u < length c.now.dims }
    ensures fails { Fails (Commutes (F.ops f.now) c.now blocks.now) result }
    ensures clears { PassesBefore (Commutes (F.ops f.now) c.now blocks.now) result s u }
{
    if commutes(f, c, blocks, s, u) {
        None
    } else {
        Some((s, u))
    }
}

/// The first pair of `s` and a cell of which `t` is a face whose square does not commute.
pub(crate) fn bad_above<F: Scalars>(
    f: &F,
    c: &Complex,
    blocks: &[Block],
    s: u32,
    t: u32,
) -> Option<(u32, u32)>
    requires complex { IsComplex c.now }
    requires regular { HasRegularIncidences c.now }
    requires restrictions { AreRestrictions (F.ops f.now) c.now blocks.now }
    requires s_is_cell { s < length c.now.dims }
    requires t_is_cell { t < length c.now.dims }
    ensures fails { Fails (Commutes (F.ops f.now) c.now blocks.now) result }
    ensures clears { (u : ℕ) → is_face c.now t u ≡ true →
        PassesBefore (Commutes (F.ops f.now) c.now blocks.now) result s u }
{
    let mut least = None;
    for &u in c.cofaces_of(t) {
        least = earlier(least, bad_pair(f, c, blocks, s, u));
    }
    least
}

/// Whether the square from `s` to `u` commutes, if `t` is the first cell between them, with the block of `s` in `t`.
fn commutes_at<F: Scalars>(
    f: &F,
    c: &Complex,
    blocks: &[Block],
    low: &Block,
    s: u32,
    t: u32,
    u: u32,
) -> bool
    requires complex { IsComplex c.now }
    requires regular { HasRegularIncidences c.now }
    requires restrictions { AreRestrictions (F.ops f.now) c.now blocks.now }
    requires low { restriction c.now blocks.now s t ≡ Some low.now }
    requires s_is_cell { s < length c.now.dims }
    requires u_is_cell { u < length c.now.dims }
    ensures { IsTrue result ↔ (IsFirstMiddle c.now s t u → Commutes (F.ops f.now) c.now blocks.now s u) }
{
    let mut middles = c.middles(s, u);
    let Some(first) = middles.next() else {
        return true;
    };
    if first != t {
        return true;
    }
    let up = restriction_near(c, blocks, middles.guess(), first, u);
    let Some(second) = middles.next() else {
        return true;
    };
    let second_up = restriction_near(c, blocks, middles.guess(), second, u);
    square(f, up, low, second_up, restriction(c, blocks, s, second))
}

/// The pair of `s` and `u`, if `t` is the first cell between them and their square does not commute.
fn bad_pair_at<F: Scalars>(
    f: &F,
    c: &Complex,
    blocks: &[Block],
    low: &Block,
    s: u32,
    t: u32,
    u: u32,
) -> Option<(u32, u32)>
    requires complex { IsComplex c.now }
    requires regular { HasRegularIncidences c.now }
    requires restrictions { AreRestrictions (F.ops f.now) c.now blocks.now }
    requires low { restriction c.now blocks.now s t ≡ Some low.now }
    requires s_is_cell { s < length c.now.dims }
    requires u_is_cell { u < length c.now.dims }
    ensures fails { Fails (Commutes (F.ops f.now) c.now blocks.now) result }
    ensures clears { IsFirstMiddle c.now s t u →
        PassesBefore (Commutes (F.ops f.now) c.now blocks.now) result s u }
{
    let pair = (s, u);
    if commutes_at(f, c, blocks, low, s, t, u) {
        None
    } else {
        Some(pair)
    }
}

/// The first pair, of `s` and a cell between which `t` is the first cell, whose square does not commute, with the block
/// of `s` in `t`.
pub(crate) fn bad_first<F: Scalars>(
    f: &F,
    c: &Complex,
    blocks: &[Block],
    low: &Block,
    s: u32,
    t: u32,
) -> Option<(u32, u32)>
    requires complex { IsComplex c.now }
    requires regular { HasRegularIncidences c.now }
    requires restrictions { AreRestrictions (F.ops f.now) c.now blocks.now }
    requires low { restriction c.now blocks.now s t ≡ Some low.now }
    requires s_is_cell { s < length c.now.dims }
    requires t_is_cell { t < length c.now.dims }
    ensures fails { Fails (Commutes (F.ops f.now) c.now blocks.now) result }
    ensures clears { (u : ℕ) → is_face c.now t u ≡ true → IsFirstMiddle c.now s t u →
        PassesBefore (Commutes (F.ops f.now) c.now blocks.now) result s u }
{
    let mut least = None;
    for &u in c.cofaces_of(t) {
        least = earlier(least, bad_pair_at(f, c, blocks, low, s, t, u));
    }
    least
}

/// The first pair of a face of `t` and of `u` whose square does not commute.
pub(crate) fn bad_below<F: Scalars>(
    f: &F,
    c: &Complex,
    blocks: &[Block],
    t: u32,
    u: u32,
) -> Option<(u32, u32)>
    requires complex { IsComplex c.now }
    requires regular { HasRegularIncidences c.now }
    requires restrictions { AreRestrictions (F.ops f.now) c.now blocks.now }
    requires t_is_cell { t < length c.now.dims }
    requires u_is_cell { u < length c.now.dims }
    ensures fails { Fails (Commutes (F.ops f.now) c.now blocks.now) result }
    ensures clears { (s : ℕ) → is_face c.now s t ≡ true →
        PassesBefore (Commutes (F.ops f.now) c.now blocks.now) result s u }
{
    let mut least = None;
    for &s in c.faces_of(t) {
        least = earlier(least, bad_pair(f, c, blocks, s, u));
    }
    least
}
