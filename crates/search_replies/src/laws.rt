// Each law is the contract of a function that does nothing.
ghost use Rattle.command_family.specs.Family.{IsLawfulFamily};
ghost use Rattle.search_replies.specs.Family.{searches, CompleteLaw};

/// The commands that search are a lawful family.
pub fn searches_law()
    ensures { IsLawfulFamily searches }
{}

/// A search with enough of all ends with an answer, or for want of memory, and `warm` after a search that closed every leaf places no result.
pub fn complete_law()
    ensures { CompleteLaw }
{}
