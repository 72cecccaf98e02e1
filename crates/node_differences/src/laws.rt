// That differences are undone, and what they are of.
ghost use Rattle.node_differences.specs.Laws.{DifferenceLaw, KeptLaw, TellingLaw};

/// A list is had again from another one and its difference from that.
pub fn difference_law()
    ensures { DifferenceLaw }
{}

/// What is had from lists that rise rises.
pub fn kept_law()
    ensures { KeptLaw }
{}

/// The nodes of a tree are told by their parents, and nodes that can be told are had again.
pub fn telling_law()
    ensures { TellingLaw }
{}
