ghost use Rattle.std.specs.Prelude.{◌≡◌, ℕ, ◌<◌, length, nat_lt};
ghost use Rattle.std.specs.List.{list_all};
ghost use Rattle.cell_complex.specs.Complexes.{is_face};
ghost use Rattle.cell_complex.specs.Invariants.{IsComplex};
ghost use Rattle.sheaf_words.specs.declared.edit.Set.TheVariants.{Stalk, Restrict};
ghost use Rattle.edit_versions.specs.Edits.{set_fault};

use cell_complex::Complex;
use dense_blocks::Scalars;
use sheaf_words::{Cause, Set};

/// The most coordinates of a stalk.
const MOST_OF_A_STALK: u32 = 16;

/// Why the set is refused under these stalks, if it is; it stands at the place `i`.
pub(crate) fn fault_of<F: Scalars>(
    f: &F,
    c: &Complex,
    stalks: &[u8],
    i: u32,
    set: &Set,
) -> Option<Cause>
    requires complex { IsComplex c.now }
    requires one_each { length stalks.now ≡ length c.now.dims }
    ensures { result ≡ set_fault (F.ops f.now) c.now stalks.now i set.now }
{
    match set {
        Set::Stalk { s, n } => stalk_fault(f, c, stalks, i, *s, *n),
        Set::Restrict { s, t, entries } => {
            restriction_fault(f, c, stalks, i, *s, *t, entries.as_slice())
        }
    }
}

/// Why the stalk of `s` does not become of size `n`.
fn stalk_fault<F: Scalars>(
    f: &F,
    c: &Complex,
    stalks: &[u8],
    i: u32,
    s: u32,
    n: u32,
) -> Option<Cause>
    requires { length stalks.now ≡ length c.now.dims }
    ensures { result ≡ set_fault (F.ops f.now) c.now stalks.now i (Stalk s n) }
{
    if s as usize >= stalks.len() {
        return Some(Cause::NoCell { i });
    }
    if n > MOST_OF_A_STALK {
        return Some(Cause::StalkLimit { i });
    }
    None
}

/// Why the restriction from `s` to `t` does not get these entries.
fn restriction_fault<F: Scalars>(
    f: &F,
    c: &Complex,
    stalks: &[u8],
    i: u32,
    s: u32,
    t: u32,
    entries: &[u32],
) -> Option<Cause>
    requires complex { IsComplex c.now }
    requires one_each { length stalks.now ≡ length c.now.dims }
    ensures { result ≡ set_fault (F.ops f.now) c.now stalks.now i (Restrict s t entries.now) }
{
    if !is_face(c, s, t) {
        return Some(Cause::NoFace { i });
    }
    if entries.len() != usize::from(stalks[t as usize]) * usize::from(stalks[s as usize]) {
        return Some(Cause::Shape { i });
    }
    if !all_below(f.order(), entries) {
        return Some(Cause::Entry { i });
    }
    None
}

/// Whether `s` is a face of `t`.
fn is_face(c: &Complex, s: u32, t: u32) -> bool
    ensures { result ≡ is_face c.now s t }
{
    c.place(s, t).is_some()
}

/// Whether all numbers are below the order.
fn all_below(order: u32, numbers: &[u32]) -> bool
    ensures { result ≡ list_all (λ a. nat_lt a order) numbers.now }
{
    numbers.iter().all(|number| *number < order)
}
