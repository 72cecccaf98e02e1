// What the number means that a point gets for a new column, as a clause of a call that does nothing.
ghost use Rattle.search_parts.specs.Nearest.{NearestLaw};

/// The number that a point gets for a new column is allowed where any is, and none that is allowed is nearer to 0.
pub fn nearest_law()
    ensures { NearestLaw }
{}
