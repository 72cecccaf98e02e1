// How far a solve may go, and who works in it.

use frac128::Frac;

/// How far a solve may go, and who works in it.
#[derive(Clone, Copy, Drop)]
pub struct Limits {
    /// How many results it may place.
    pub nodes: u64,
    /// How many simplex steps it may make in each relaxation, and in the ray phase.
    pub pivots: u64,
    /// How many nodes its tree may have.
    pub tree: u64,
    /// How many workers share it.
    pub workers: u64,
    /// The seed whose words say whose turn it is.
    pub seed: u64,
    /// How far from the best value the best kept point may be for the search to end, at least 0. `None` where it is to find the best.
    pub gap: Option<Frac>,
}
