ghost use Rattle.removals.specs.Laws.{RemovalKeepsBlockComplex, RemovalKeepsDifferential, RemovalKeepsCochainComplex};
ghost use Rattle.removals.specs.Laws.{RemovalsKeepAll, RemovalsLeaveOne};

/// A law, with nothing to run: what a removal leaves of a block complex over a field is a block complex over that
/// field.
pub fn removal_keeps_block_complex()
    ensures { RemovalKeepsBlockComplex }
{}

/// A law, with nothing to run: where the sum over the cells t of M(t, u) M(s, t) is zero for all live cells s and u, it
/// is zero after a removal.
pub fn removal_keeps_differential()
    ensures { RemovalKeepsDifferential }
{}

/// A law, with nothing to run: where the coboundary of the coboundary of each cochain is zero, it is zero after a
/// removal.
pub fn removal_keeps_cochain_complex()
    ensures { RemovalKeepsCochainComplex }
{}

/// A law, with nothing to run: several removals keep the same.
pub fn removals_keep_all()
    ensures { RemovalsKeepAll }
{}

/// A law, with nothing to run: the list of removed pairs tells what is left.
pub fn removals_leave_one()
    ensures { RemovalsLeaveOne }
{}
