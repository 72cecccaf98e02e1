// What becomes of a result that is placed.

/// What became of a result.
#[derive(Clone, Copy, Drop)]
pub enum Taken {
    /// No open leaf has the id.
    Stale,
    /// A part of the result does not fit the model or the leaf.
    Refused,
    /// The leaf does not close by the result, and stays open.
    Reopened,
    /// There is no room for two more nodes.
    Full,
    /// The leaf is closed.
    Closed,
    /// The leaf is split.
    Split,
    /// The leaf stays, with the basis.
    Kept,
}
