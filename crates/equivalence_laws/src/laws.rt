ghost use Rattle.equivalence_laws.specs.Laws.{RemovalGivesEquivalence, EquivalencesCompose, CompositeIsEquivalence};
ghost use Rattle.equivalence_laws.specs.Laws.{CompositeExists, CompositeIsUnique};
ghost use Rattle.equivalence_laws.specs.Laws.{AfterIsByRemovals, PairsHaveComposite};
ghost use Rattle.equivalence_laws.specs.Laws.{PairsGiveEquivalence, PairsTellComposite, EquivalenceCarriesBases};
ghost use Rattle.equivalence_laws.specs.Laws.{UnitImagesAreBasis, CocyclesHaveCoordinates, RemovalsGiveBases};
ghost use Rattle.equivalence_laws.specs.Laws.{PairsGiveBases, NextIsComposite, OperationsGiveNext};

/// A law, with nothing to run: the matrices of the three maps of a removal are an equivalence of the block complex and
/// of what is left.
pub fn removal_gives_equivalence()
    ensures { RemovalGivesEquivalence }
{}

/// A law, with nothing to run: two equivalences, the second from where the first ends, compose to one.
pub fn equivalences_compose()
    ensures { EquivalencesCompose }
{}

/// A law, with nothing to run: the composite of removals, one after another, is an equivalence of the first block
/// complex and the last.
pub fn composite_is_equivalence()
    ensures { CompositeIsEquivalence }
{}

/// A law, with nothing to run: removals, one after another, have a composite.
pub fn composite_exists()
    ensures { CompositeExists }
{}

/// A law, with nothing to run: the matrices of a composite are the only ones.
pub fn composite_is_unique()
    ensures { CompositeIsUnique }
{}

/// A law, with nothing to run: the composite of some removals becomes, by one removal more, the composite with it at
/// the end.
pub fn next_is_composite()
    ensures { NextIsComposite }
{}

/// A law, with nothing to run: row and column operations make the matrices of one removal more.
pub fn operations_give_next()
    ensures { OperationsGiveNext }
{}

/// A law, with nothing to run: what is left of a block complex once pairs of cells have been removed is what removals
/// of these pairs leave.
pub fn after_is_by_removals()
    ensures { AfterIsByRemovals }
{}

/// A law, with nothing to run: pairs that may be removed, one after another, have a composite.
pub fn pairs_have_composite()
    ensures { PairsHaveComposite }
{}

/// A law, with nothing to run: the composite of pairs is an equivalence of the block complex and of what is left.
pub fn pairs_give_equivalence()
    ensures { PairsGiveEquivalence }
{}

/// A law, with nothing to run: the list of removed pairs tells the composite.
pub fn pairs_tell_composite()
    ensures { PairsTellComposite }
{}

/// A law, with nothing to run: an equivalence carries bases of cohomology from the small complex to the whole one.
pub fn equivalence_carries_bases()
    ensures { EquivalenceCarriesBases }
{}

/// A law, with nothing to run: where the small complex has no coboundary, the images of the unit vectors are a basis of
/// the cohomology of the whole one.
pub fn unit_images_are_basis()
    ensures { UnitImagesAreBasis }
{}

/// A law, with nothing to run: a cocycle is the combination of these images by its own image, plus a coboundary.
pub fn cocycles_have_coordinates()
    ensures { CocyclesHaveCoordinates }
{}

/// A law, with nothing to run: where removals leave no block, the images of the unit vectors are a basis of the
/// cohomology of the first complex.
pub fn removals_give_bases()
    ensures { RemovalsGiveBases }
{}

/// A law, with nothing to run: where the removal of pairs leaves no block, the images of the unit vectors are a basis
/// of the cohomology of the first complex.
pub fn pairs_give_bases()
    ensures { PairsGiveBases }
{}
