// What the clauses of `run` come to, and what holds of a search that is saved and restored, as clauses of calls that do nothing.
ghost use Rattle.sym_shell.specs.Laws.{RestoredLaw};
ghost use Rattle.sym_shell.specs.Run.{ShellToldLaw};

/// A run of a source that tells its bytes has answered those, what it had not yet taken among them. With status 5 it has answered them all,
/// and some reply is `error 90 memory`, or some of them were not gone through.
pub fn told_law()
    ensures { ShellToldLaw }
{}

/// A search without an open leaf that is saved and restored has none, so that `warm` places nothing.
pub fn restored_law()
    ensures { RestoredLaw }
{}
