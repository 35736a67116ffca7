ghost use Rattle.std.specs.Prelude.{◌≡◌};
ghost use Rattle.square_check.specs.Searches.{is_before, earlier_pair};

/// Whether `first` comes before `second`, in order of their first numbers and then of the second ones.
fn is_before(first: (u32, u32), second: (u32, u32)) -> bool
    ensures { result ≡ is_before first second }
{
    first.0 < second.0 || first.0 == second.0 && first.1 < second.1
}

/// The earlier of the two pairs, as far as there are any.
pub(crate) fn earlier(first: Option<(u32, u32)>, second: Option<(u32, u32)>) -> Option<(u32, u32)>
    ensures { result ≡ earlier_pair first second }
{
    match (first, second) {
        (Some(a), Some(b)) => Some(if is_before(b, a) { b } else { a }),
        (Some(a), None) => Some(a),
        (None, b) => b,
    }
}
