ghost use Rattle.scalar_finish.specs.Laws.{SplitKeepsAll, SplitsAreSame, FinishIsAfter, FinishesAreEqual};
ghost use Rattle.scalar_finish.specs.Laws.{FinishCountsDimensions};

/// A law, with nothing to run: a block complex that is split into its coordinates keeps its coboundary, and is a block
/// complex over the same field.
pub fn split_keeps_all()
    ensures { SplitKeepsAll }
{}

/// A law, with nothing to run: the same block complex is split into the same.
pub fn splits_are_same()
    ensures { SplitsAreSame }
{}

/// A law, with nothing to run: the pairs of a reduction to the end leave no block.
pub fn finish_is_after()
    ensures { FinishIsAfter }
{}

/// A law, with nothing to run: the same block complex has one reduction to the end.
pub fn finishes_are_equal()
    ensures { FinishesAreEqual }
{}

/// A law, with nothing to run: the coordinates that are left at the end, of a block complex that was split, count the
/// dimensions of its cohomology.
pub fn finish_counts_dimensions()
    ensures { FinishCountsDimensions }
{}
