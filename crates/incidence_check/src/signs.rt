ghost use Rattle.std.specs.Prelude.{◌≡◌};
ghost use Rattle.std.specs.Option.{option_map, option_and_then};
ghost use Rattle.incidence_check.specs.Incidences.{are_opposite, times, sign_product};

use cell_complex::{Complex, Sign};

/// Whether one is plus and the other is minus.
pub(crate) fn are_opposite(first: Option<Sign>, second: Option<Sign>) -> bool
    ensures { result ≡ are_opposite first second }
{
    match (first, second) {
        (Some(Sign::Plus), Some(Sign::Minus)) | (Some(Sign::Minus), Some(Sign::Plus)) => true,
        _ => false,
    }
}

/// The product of two signs, as far as there are both.
pub(crate) fn product(first: Option<Sign>, second: Option<Sign>) -> Option<Sign>
    ensures { result ≡ option_and_then (λ a. option_map (times a) second) first }
{
    let first = first?;
    let second = second?;
    Some(if first == second {
        Sign::Plus
    } else {
        Sign::Minus
    })
}

/// The product of the signs of `s` in `t` and of `t` in `u`; none where one of them is no face.
pub(crate) fn sign_product(c: &Complex, s: u32, t: u32, u: u32) -> Option<Sign>
    ensures { result ≡ sign_product c.now s t u }
{
    product(c.sign(s, t), c.sign(t, u))
}
