// How large a model, its names and a search of it may be: the numbers of specs/Limits, which no contract takes from here.

/// The most rows of a model.
pub const ROW_LIMIT: usize = 1_000;

/// The most columns of a model.
pub const COL_LIMIT: usize = 4_000;

/// The most coefficients of a model.
pub const ENTRY_LIMIT: usize = 50_000;

/// The most bytes of a name.
pub const NAME_LIMIT: usize = 255;

/// The most cuts of a search.
pub const POOL_LIMIT: usize = 10_000;

/// The most points that a search keeps.
pub const POINT_LIMIT: usize = 100;

/// The most nodes of a search's tree.
pub const NODE_LIMIT: u64 = 1_000_000;
