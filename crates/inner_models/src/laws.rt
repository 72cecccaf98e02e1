// What the inner models say of the model that they stand on. Each law is the contract of a function that does nothing.
ghost use Rattle.inner_models.specs.Laws.{FreeNamesLaw, BoundedLaw, BareLaw, GapLaw, Least2Law, LeftEndLaw, RightEndLaw, PullLaw};
ghost use Rattle.inner_models.specs.Undone.{UndoneLaw};
ghost use Rattle.inner_models.specs.Room.{FittingEditsLaw, BareRoomLaw};

/// The new names stand among no other, and those of the two rows differ.
pub fn names_law()
    ensures { FreeNamesLaw }
{}

/// A model whose objective is whole is never unbounded.
pub fn bounded_law()
    ensures { BoundedLaw }
{}

/// The model in least form with constants 0 has the model's feasible points, and their values less the constants.
pub fn bare_law()
    ensures { BareLaw }
{}

/// A point of the gap's model with Z below `a*b` is a point between the two outcomes, and each such point extends to one.
pub fn gap_law()
    ensures { GapLaw }
{}

/// The model of the least second value has the same points, and their second values.
pub fn least2_law()
    ensures { Least2Law }
{}

/// The best point among those with the least first value is nondominated.
pub fn left_law()
    ensures { LeftEndLaw }
{}

/// The best point among those with the least second value is nondominated.
pub fn right_law()
    ensures { RightEndLaw }
{}

/// The point with the least sum among those that are no worse than an outcome is nondominated.
pub fn pull_law()
    ensures { PullLaw }
{}

/// Edits that are taken back leave the model, and costs of all columns are an objective.
pub fn undone_law()
    ensures { UndoneLaw }
{}

/// Nothing is wrong with the edits that make the inner models of a widened model with room.
pub fn fitting_edits_law()
    ensures { FittingEditsLaw }
{}

/// The model in least form has room for an inner model.
pub fn bare_room_law()
    ensures { BareRoomLaw }
{}
