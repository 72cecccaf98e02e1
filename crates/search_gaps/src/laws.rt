// What a search within a gap shows, as clauses of calls that do nothing.
ghost use Rattle.search_gaps.specs.Laws.{WithinLaw, FirstOpenLaw};

/// Where all leaves of a sound search close against a number, no feasible point has a value below it.
pub fn within_law()
    ensures { WithinLaw }
{}

/// As long as a leaf is open, the open one that goes first decides whether all leaves are within a gap.
pub fn first_open_law()
    ensures { FirstOpenLaw }
{}
