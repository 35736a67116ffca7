ghost use Rattle.std.specs.Prelude.{◌≡◌, ◌↔◌, IsTrue};
ghost use Rattle.io_edge.specs.Counts.{next_count};
ghost use Rattle.io_edge.specs.Memory.{FailsNext};

/// Counts one call more, up to the last value of a `u64`, and says whether it is among the failing ones.
pub(crate) fn fails_next(failing: &[u64], calls: &mut u64) -> bool
    ensures counted { calls.new ≡ next_count calls.old }
    ensures fails { IsTrue result ↔ FailsNext failing.now calls.old }
{
    *calls = calls.saturating_add(1);
    failing.contains(calls)
}
