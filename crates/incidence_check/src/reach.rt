ghost use Rattle.std.specs.Prelude.{◌≡◌, ◌<◌, length, nat_eq};
ghost use Rattle.std.specs.List.{list_any};
ghost use Rattle.std.specs.List.Sorted.{IsNonDecreasing};
ghost use Rattle.cell_complex.specs.Invariants.{IsComplex, cofaces_of};
ghost use Rattle.incidence_check.specs.Reach.{IsLeastFrom, lesser, reaches};

use cell_complex::Complex;

/// The first of the rising numbers that is not below `from`.
fn first_from(numbers: &[u32], from: u32) -> Option<u32>
    requires { IsNonDecreasing numbers.now }
    ensures { IsLeastFrom (λ u. list_any (nat_eq u) numbers.now) from result }
{
    let at = numbers.partition_point(|&u| u < from);
    numbers.get(at).copied()
}

/// The lesser of the two, as far as there are any.
fn lesser(first: Option<u32>, second: Option<u32>) -> Option<u32>
    ensures { result ≡ lesser first second }
{
    match (first, second) {
        (Some(a), Some(b)) => Some(a.min(b)),
        (Some(a), None) => Some(a),
        (None, b) => b,
    }
}

/// The first cell, from `from` on, of which a coface of `s` is a face.
pub(crate) fn next_above(c: &Complex, s: u32, from: u32) -> Option<u32>
    requires complex { IsComplex c.now }
    requires s_is_cell { s < length c.now.dims }
    ensures { IsLeastFrom (reaches c.now (cofaces_of c.now s)) from result }
{
    let mut least = None;
    for &t in c.cofaces_of(s) {
        least = lesser(least, first_from(c.cofaces_of(t), from));
    }
    least
}
