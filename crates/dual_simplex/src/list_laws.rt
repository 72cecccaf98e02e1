// Each law is the contract of a function that does nothing.
ghost use Rattle.dual_simplex.specs.ListLaws.{WalkStatesLaw, ListedLaw};

/// No state comes twice among moves, in whatever order of rows and places: so after as many moves as a limit allows one
/// more different states were met.
pub fn walk_states_law()
    ensures { WalkStatesLaw }
{}

/// A list of multipliers has all that they are: each activity that it does not name has 0, and the multiplier of a column is
/// what those of the activities leave of its cost.
pub fn listed_law()
    ensures { ListedLaw }
{}
