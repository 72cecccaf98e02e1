// What the bounds prove, as clauses of calls that do nothing.
ghost use Rattle.dual_bounds.specs.Laws.{TreeBoundLaw, PointBoundLaw, NewNumbersLaw, PresentNumbersLaw, ExactLaw, OneBoundLaw};

/// No feasible point has a value below the bound of a tree whose splits are on integer columns of the model, and none is
/// feasible where it says so.
pub fn tree_bound_law()
    ensures { TreeBoundLaw }
{}

/// A feasible point has the value of an upper bound.
pub fn point_bound_law()
    ensures { PointBoundLaw }
{}

/// The tree of a search proves its bound of the model with other sides, or with other costs.
pub fn new_numbers_law()
    ensures { NewNumbersLaw }
{}

/// With the sides, or the costs, that it has a model is itself.
pub fn present_numbers_law()
    ensures { PresentNumbersLaw }
{}

/// Where no leaf is open and a point is kept, both bounds of a search at its own model are its optimum.
pub fn exact_law()
    ensures { ExactLaw }
{}

/// Two bounds of one tree at one model, and two bounds of the same points, are one.
pub fn one_bound_law()
    ensures { OneBoundLaw }
{}
