ghost use Rattle.block_complexes.specs.Laws.{DifferentialIsCochainComplex};

/// A law, with nothing to run: the sum over the cells t of M(t, u) M(s, t) is zero for all live cells s and u exactly
/// where the coboundary of the coboundary of each cochain is zero.
pub fn differential_is_cochain_complex()
    ensures { DifferentialIsCochainComplex }
{}
