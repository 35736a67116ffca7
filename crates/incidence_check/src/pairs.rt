ghost use Rattle.std.specs.Prelude.{◌≡◌, ℕ, ◌+◌, ◌*◌, ◌<◌, ◌≤◌, true, [], length, take, get_or, IsTrue};
ghost use Rattle.cell_complex.specs.Complexes.{is_face, faces_of};
ghost use Rattle.cell_complex.specs.Invariants.{IsComplex};
ghost use Rattle.incidence_check.specs.Marks.{next_state, AreMarks};
ghost use Rattle.incidence_check.specs.Passes.{AllPass, PassesBelow};

use crate::signs::product;
use cell_complex::{Complex, Sign};

/// Whether nothing is wrong between any two cells: each chain of two faces marks its lowest cell, once for each highest
/// cell.
pub(crate) fn all_pass(c: &Complex) -> bool
    ensures { IsTrue result → AllPass c.now }
{
    let mut marks = [0; Complex::MOST_CELLS];
    let count = c.dims().len() as u32;
    for u in 0..count {
        mark_all(c, &mut marks, u);
        if !all_cancel(c, &marks, u) {
            return false;
        }
    }
    true
}

/// Marks the faces of all faces of `u`.
fn mark_all(c: &Complex, marks: &mut [u32], u: u32)
    requires complex { IsComplex c.now }
    requires u_is_cell { u < length c.now.dims }
    requires few { u < 4096 }
    requires count { length marks.old ≡ 4096 }
    requires marks { AreMarks c.now u [] marks.old }
    ensures count { length marks.new ≡ 4096 }
    ensures marks { AreMarks c.now u (faces_of c.now u) marks.new }
{
    for at in 0..c.faces_of(u).len() {
        mark_below(c, marks, u, at);
    }
}

/// Marks the faces of one face of `u`, by its place among these.
fn mark_below(c: &Complex, marks: &mut [u32], u: u32, at: usize)
    requires complex { IsComplex c.now }
    requires u_is_cell { u < length c.now.dims }
    requires few { u < 4096 }
    requires at { at < length (faces_of c.now u) }
    requires count { length marks.old ≡ 4096 }
    requires marks { AreMarks c.now u (take at (faces_of c.now u)) marks.old }
    ensures count { length marks.new ≡ 4096 }
    ensures marks { AreMarks c.now u (take (at + 1) (faces_of c.now u)) marks.new }
{
    let base = 4 * u;
    let t = c.faces_of(u)[at];
    let upper = c.sign_near(before_faces(c, u).saturating_add(at + 1), t, u);
    let mut guess = before_faces(c, t);
    for &s in c.faces_of(t) {
        guess = guess.saturating_add(1);
        let way = product(c.sign_near(guess, s, t), upper);
        let state = next_state(marks[s as usize].saturating_sub(base), way);
        marks[s as usize] = base + state;
    }
}

/// Where the face should stand after which those of `t` begin; no clause says that it does.
fn before_faces(c: &Complex, t: u32) -> usize
    requires { t < length c.now.dims }
{
    c.middles(t, t).guess()
}

/// The state of a cell after one way more.
fn next_state(state: u32, way: Option<Sign>) -> u32
    ensures next { result ≡ next_state state way }
    ensures most { result ≤ 4 }
{
    let once = match way {
        Some(Sign::Plus) => 1,
        Some(Sign::Minus) => 2,
        None => return 4,
    };
    if state == 0 {
        once
    } else if state == 3 - once {
        3
    } else {
        4
    }
}

/// Whether nothing is wrong between `u` and any cell, by the marks.
fn all_cancel(c: &Complex, marks: &[u32], u: u32) -> bool
    requires complex { IsComplex c.now }
    requires u_is_cell { u < length c.now.dims }
    requires few { u < 4096 }
    requires count { length marks.now ≡ 4096 }
    requires marks { AreMarks c.now u (faces_of c.now u) marks.now }
    ensures { IsTrue result → PassesBelow c.now u }
{
    for &t in c.faces_of(u) {
        if !all_marked(c, marks, t, 4 * u + 3) {
            return false;
        }
    }
    true
}

/// Whether all faces of `t` have this mark.
fn all_marked(c: &Complex, marks: &[u32], t: u32, mark: u32) -> bool
    requires complex { IsComplex c.now }
    requires t_is_cell { t < length c.now.dims }
    requires count { length marks.now ≡ 4096 }
    ensures { IsTrue result → (s : ℕ) → is_face c.now s t ≡ true → get_or marks.now s 0 ≡ mark }
{
    for &s in c.faces_of(t) {
        if marks[s as usize] != mark {
            return false;
        }
    }
    true
}
