ghost use Rattle.std.specs.Prelude.{◌≡◌, ◌<◌, ◌↔◌, length, IsOk};
ghost use Rattle.cell_complex.specs.Invariants.{IsComplex};
ghost use Rattle.incidence_check.specs.Incidences.{edge_fault, faults, HasRegularIncidences};
ghost use Rattle.incidence_check.specs.Answers.{pair_fault, pair_faults};
ghost use Rattle.incidence_check.specs.Answers.{AnswersFirst};

use crate::incidence::Incidence;
use crate::pairs::all_pass;
use crate::reach::next_above;
use crate::signs::{are_opposite, sign_product};
use cell_complex::Complex;

/// Whether each edge has exactly two faces, of opposite sign, and between any two cells two dimensions apart are no
/// cells, or two whose products of signs are opposite. Takes 16 KiB of the stack, and no other memory. It visits each
/// chain of two faces twice, and each edge; the first fault is searched for only where there is one.
///
/// # Errors
///
/// The first fault: of the edges, in order, and then of the pairs of cells, in order of the lower cell and then of the
/// upper one.
pub fn check(c: &Complex) -> Result<(), Incidence>
    ensures regular { IsOk result ↔ HasRegularIncidences c.now }
    ensures first { AnswersFirst (faults c.now) result }
{
    let count = c.dims().len() as u32;
    for t in 0..count {
        if let Some(fault) = edge_fault(c, t) {
            return Err(fault);
        }
    }
    if all_pass(c) {
        return Ok(());
    }
    for s in 0..count {
        check_pairs(c, s)?;
    }
    Ok(())
}

/// What is wrong with the cell `t`, where it is an edge.
fn edge_fault(c: &Complex, t: u32) -> Option<Incidence>
    requires { t < length c.now.dims }
    ensures { result ≡ edge_fault c.now t }
{
    if c.dims()[t as usize] != 1 {
        return None;
    }
    match c.faces_of(t) {
        [first, second] if are_opposite(c.sign(*first, t), c.sign(*second, t)) => None,
        _ => Some(Incidence::EdgeEnds { t }),
    }
}

/// Whether nothing is wrong between `s` and other cells; else the fault of the first of these.
fn check_pairs(c: &Complex, s: u32) -> Result<(), Incidence>
    requires complex { IsComplex c.now }
    requires s_is_cell { s < length c.now.dims }
    ensures { AnswersFirst (pair_faults c.now s) result }
{
    let mut from = 0;
    while let Some(u) = next_above(c, s, from) {
        if let Some(fault) = pair_fault(c, s, u) {
            return Err(fault);
        }
        from = u + 1;
    }
    Ok(())
}

/// What is wrong between `s` and `u`.
fn pair_fault(c: &Complex, s: u32, u: u32) -> Option<Incidence>
    requires complex { IsComplex c.now }
    requires s_is_cell { s < length c.now.dims }
    requires u_is_cell { u < length c.now.dims }
    ensures { result ≡ pair_fault c.now s u }
{
    let mut middles = c.middles(s, u);
    let first = middles.next()?;
    let Some(second) = middles.next() else {
        return Some(Incidence::Middles { s, u, count: 1 });
    };
    let others = middles.count() as u32;
    if others > 0 {
        return Some(Incidence::Middles {
            s,
            u,
            count: 2 + others,
        });
    }
    if are_opposite(sign_product(c, s, first, u), sign_product(c, s, second, u)) {
        None
    } else {
        Some(Incidence::Signs { s, u })
    }
}
