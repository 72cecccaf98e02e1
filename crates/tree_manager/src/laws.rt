// Laws of managers, as clauses of calls that do nothing.
ghost use Rattle.tree_manager.specs.Laws.{AnyEventsLaw, FinishedLaw, SameEndLaw};

/// After any list of events the search is sound, no two workers hold one leaf, and no closed leaf is held.
pub fn any_events_law()
    ensures { AnyEventsLaw }
{}

/// Where no leaf is open, the best kept point is an optimum, or without one no point is feasible.
pub fn finished_law()
    ensures { FinishedLaw }
{}

/// Two managers without an open leaf on one model have shown the same.
pub fn same_end_law()
    ensures { SameEndLaw }
{}
