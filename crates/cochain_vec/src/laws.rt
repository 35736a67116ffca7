ghost use Rattle.cochain_vec.specs.Dimensions.{DimensionsAgree};
ghost use Rattle.cochain_vec.specs.Stalkless.{EmptyCellsChangeNothing};

/// A law, with nothing to run: a cell without coordinates changes no basis of cohomology.
pub fn empty_cells_change_nothing()
    ensures { EmptyCellsChangeNothing }
{}

/// A law, with nothing to run: two bases of the cohomology of one degree have the same length, so only one list of
/// numbers is that of the dimensions.
pub fn dims_agree()
    ensures { DimensionsAgree }
{}
