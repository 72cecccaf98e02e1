// Each law is the contract of a function that does nothing.
ghost use Rattle.command_family.specs.Family.{IsLawfulFamily};
ghost use Rattle.front_commands.specs.Names.{PartNamesLaw};
ghost use Rattle.front_commands.specs.Family.{fronts, FrontCompleteLaw};

/// The command that looks for fronts is a lawful family.
pub fn fronts_law()
    ensures { IsLawfulFamily fronts }
{}

/// Where the limits are enough for each part, looking for a front ends with one, or shows that no point is feasible, or wants memory; and the
/// search that is kept stays.
pub fn front_complete_law()
    ensures { FrontCompleteLaw }
{}

/// The rows and columns of each part's inner model have the names that they are told by.
pub fn part_names_law()
    ensures { PartNamesLaw }
{}
