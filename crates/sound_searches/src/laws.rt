// What a sound search says of its model, as clauses of calls that do nothing.
ghost use Rattle.sound_searches.specs.Laws.{OptimumLaw, EmptyLaw, BoundLaw};
ghost use Rattle.sound_searches.specs.Others.{OthersLaw};

/// Where no leaf of a sound search is open, its best point is an optimum.
pub fn optimum_law()
    ensures { OptimumLaw }
{}

/// Where no leaf of a sound search is open and there is no point, no point is feasible.
pub fn empty_law()
    ensures { EmptyLaw }
{}

/// A number that is no more than that of each open leaf is no more than the value of any feasible point, but for points
/// that are no better than a kept one.
pub fn bound_law()
    ensures { BoundLaw }
{}

/// A placed result leaves every node as it was, but for the leaf that it is for and for the states of leaves.
pub fn others_law()
    ensures { OthersLaw }
{}
