ghost use Rattle.dense_blocks.specs.LeadingAnswers.{OneLeadingCombination, OneLeadingFunctional};

/// A law, with nothing to run: `solve` could give no other combination that leaves out the columns that earlier ones
/// give.
pub fn leading_combination_is_unique()
    ensures { OneLeadingCombination }
{}

/// A law, with nothing to run: `solve` could give no other functional that leaves out the coordinates that earlier ones
/// give.
pub fn leading_functional_is_unique()
    ensures { OneLeadingFunctional }
{}
