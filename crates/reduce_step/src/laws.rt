ghost use Rattle.reduce_step.specs.Laws.{StepsAreRemovals, StepsAreOneMore, StepsKeepSame};

/// A law, with nothing to run: what steps leave is what is left after the removals of their pairs.
pub fn steps_are_removals()
    ensures { StepsAreRemovals }
{}

/// A law, with nothing to run: a step from what other steps leave is one step more.
pub fn steps_are_one_more()
    ensures { StepsAreOneMore }
{}

/// A law, with nothing to run: steps go from, and lead to, every block complex with the same matrices.
pub fn steps_keep_same()
    ensures { StepsKeepSame }
{}
