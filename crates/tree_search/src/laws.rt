// Laws of a search's bound, and of what is enough for it to go to the end, as clauses of calls that do nothing.
ghost use Rattle.tree_search.specs.EnoughLaws.{EnoughForNewLaw, EnoughForKeptLaw, MovesMetLaw};
ghost use Rattle.tree_search.specs.Laws.{StopBoundLaw, OpenLaw};
ghost use Rattle.tree_search.specs.Alone.{OneWorkerLaw};
ghost use Rattle.tree_search.specs.Driven.{DriveLaw};

/// No feasible point is better than the bound of a search that stopped.
pub fn stop_bound_law()
    ensures { StopBoundLaw }
{}

/// Beside a ray no multipliers bound the leaf of a feasible point, so it stays open.
pub fn open_law()
    ensures { OpenLaw }
{}

/// What is enough for a search to go to the end can be had, for a new one and for one that goes on; and there is a number of moves that
/// no run of a model's relaxations has.
pub fn enough_met_law()
    ensures new { EnoughForNewLaw }
    ensures kept { EnoughForKeptLaw }
    ensures moves { MovesMetLaw }
{}

/// With one worker each result is that of the leaf that goes first then, and so is each stop, whatever the seed is.
pub fn one_worker_law()
    ensures { OneWorkerLaw }
{}

/// What a search does is a list of its manager's events: hand-outs, cuts that are added and results that are taken, of which exactly those
/// that are counted place a result.
pub fn drive_law()
    ensures { DriveLaw }
{}
