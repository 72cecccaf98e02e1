// Each law is the contract of a function that does nothing.
ghost use Rattle.command_family.specs.Family.{IsLawfulFamily};
ghost use Rattle.bound_commands.specs.Family.{boundings};
ghost use Rattle.bound_commands.specs.Laws.{UnchangedLaw, BestValueLaw};

/// The commands of bounds are a lawful family.
pub fn bounds_law()
    ensures { IsLawfulFamily boundings }
{}

/// Nothing changes.
pub fn unchanged_law()
    ensures { UnchangedLaw }
{}

/// A bound at the sides, or at the costs, that stand is the best value, right after a search has found it and closed every leaf.
pub fn best_value_law()
    ensures { BestValueLaw }
{}
