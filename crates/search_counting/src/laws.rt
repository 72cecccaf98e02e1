// Laws of regions and of what a search can still place, as clauses of calls that do nothing.
ghost use Rattle.search_counting.specs.Laws.{ChildrenLaw, SomePointLaw, CapLaw, SplitCapLaw, LowersLaw, LeftLaw, RoomLaw, RoomyLaw, TooSmallLaw};

/// The two children of a split on an integer column have together the points of their parent.
pub fn split_law()
    ensures { ChildrenLaw }
{}

/// A region that is not seen to be empty has a point.
pub fn some_point_law()
    ensures { SomePointLaw }
{}

/// The open leaves of a tree can take at most as many results as the model's cap.
pub fn cap_law()
    ensures { CapLaw }
{}

/// The open leaves of a tree can take fewer splits than the model has whole points, if it has any.
pub fn split_cap_law()
    ensures { SplitCapLaw }
{}

/// A result that closes or splits a leaf leaves less to place.
pub fn lowers_law()
    ensures { LowersLaw }
{}

/// A search with an open leaf has a result left to place.
pub fn left_law()
    ensures { LeftLaw }
{}

/// Where the tree has room for each split that can still come, it has room for one of an open leaf.
pub fn room_law()
    ensures { RoomLaw }
{}

/// A new search whose tree may have as many nodes as the model's cap, and three ids for each split, has room for each of them.
pub fn roomy_law()
    ensures { RoomyLaw }
{}

/// A new search whose tree has no room for each split began without room for the most splits.
pub fn too_small_law()
    ensures { TooSmallLaw }
{}
