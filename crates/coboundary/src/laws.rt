ghost use Rattle.coboundary.specs.Closed.{CoboundaryOfCoboundaryIsZero, CoboundariesAreCocycles};
ghost use Rattle.coboundary.specs.StartCoboundary.{StartIsBlockComplex, StartHasTheCoboundary};
ghost use Rattle.coboundary.specs.StartCoboundary.{StartIsCochainComplex, StartHasTheCohomology};

/// A law, with nothing to run: on every sheaf over a field, the coboundary of the coboundary of a cochain is zero.
pub fn dd_zero()
    ensures { CoboundaryOfCoboundaryIsZero }
{}

/// A law, with nothing to run: on every sheaf over a field, a coboundary is a cocycle.
pub fn coboundaries_are_cocycles()
    ensures { CoboundariesAreCocycles }
{}

/// A law, with nothing to run: the start complex of a sheaf over a field is a block complex over that field.
pub fn start_is_block_complex()
    ensures { StartIsBlockComplex }
{}

/// A law, with nothing to run: in each degree the start complex of a sheaf has the coboundary of the sheaf.
pub fn start_has_the_coboundary()
    ensures { StartHasTheCoboundary }
{}

/// A law, with nothing to run: on the start complex of a sheaf the coboundary of the coboundary of a cochain is zero.
pub fn start_is_cochain_complex()
    ensures { StartIsCochainComplex }
{}

/// A law, with nothing to run: the start complex of a sheaf has the bases of cohomology of the sheaf.
pub fn start_has_the_cohomology()
    ensures { StartHasTheCohomology }
{}
