// Each law is the contract of a function that does nothing.
ghost use Rattle.command_family.specs.Family.{IsLawfulFamily};
ghost use Rattle.file_commands.specs.Family.{filings};
ghost use Rattle.file_commands.specs.Laws.{RestoredSearchLaw};

/// The commands of files are a lawful family.
pub fn filings_law()
    ensures { IsLawfulFamily filings }
{}

/// A search without an open leaf that is saved and restored has none.
pub fn restored_law()
    ensures { RestoredSearchLaw }
{}
